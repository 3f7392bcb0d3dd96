ghost use Rattle.std.specs.Prelude.{◌≡◌};
ghost use Rattle.kinds.specs.LimitsText.{limits_of, LimitsByLastLines, LimitsInEditions};

use crate::open_record::read_record;
use limits::record::Limits;
use limits::slots::LimitsSlots;
use sources::fault::Refusal;
use sources::source::Source;

/// Reads the limits text of a source into a record, which is blank after a refusal. A break is the end of the text.
pub fn read_limits<S: Source>(source: &mut S, limits: &mut Limits) -> Result<(), Refusal>
    ensures defined { (result, limits.new, S.text source.new) ≡ limits_of (S.text source.old) }
    ensures lines { LimitsByLastLines (S.text source.old) result limits.new }
    ensures editions { LimitsInEditions (S.text source.old) result limits.new }
{
    read_record::<S, LimitsSlots>(source, limits)
}
