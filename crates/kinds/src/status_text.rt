ghost use Rattle.std.specs.Prelude.{◌≡◌};
ghost use Rattle.kinds.specs.StatusText.{status_of, StatusByLastLines, StatusInEditions};

use crate::open_record::read_record;
use sources::fault::Refusal;
use sources::source::Source;
use status::record::{Status, StatusSlots};

/// Reads the status text of a source into a record, which is blank after a refusal.
pub fn read_status<S: Source>(source: &mut S, status: &mut Status) -> Result<(), Refusal>
    ensures defined { (result, status.new, S.text source.new) ≡ status_of (S.text source.old) }
    ensures lines { StatusByLastLines (S.text source.old) result status.new }
    ensures editions { StatusInEditions (S.text source.old) result status.new }
{
    read_record::<S, StatusSlots>(source, status)
}
