ghost use Rattle.std.specs.Prelude.{◌≡◌, Ok};
ghost use Rattle.std.specs.Result.{result_and};
ghost use Rattle.fields.specs.Slots.{at_field, needed as needed_of, optional as optional_of, lenient as lenient_of};

use sources::fault::Fault;
use sources::reason::Reason;

/// What the last line of a field's name left: nothing, a value, or what is wrong with it.
pub type Slot<T> = Option<Result<T, Fault>>;

/// A fault gains the number of its field.
pub fn at_field<T>(field: u32, r: Result<T, Fault>) -> Result<T, Fault>
    ensures { result ≡ at_field field r }
{
    r.map_err(|f| Fault { field, ..f })
}

/// A field that may not be missing.
pub fn needed<T>(field: u32, slot: Slot<T>) -> Result<T, Fault>
    ensures { result ≡ needed_of field slot }
{
    at_field(field, slot.ok_or(Fault::new(Reason::Absent)).flatten())
}

/// Sets a field that may not be missing.
pub fn set_needed<T: Copy>(field: u32, slot: &Slot<T>, place: &mut T) -> Result<(), Fault>
    ensures { result_and result (Ok place.new) ≡ needed_of field slot.now }
{
    match slot {
        None => at_field(field, Err(Fault::new(Reason::Absent))),
        Some(Ok(value)) => {
            *place = *value;
            Ok(())
        }
        Some(Err(f)) => at_field(field, Err(*f)),
    }
}

/// Sets a field that may be missing.
pub fn set_optional<T: Copy + Default + Drop>(
    field: u32,
    slot: &Slot<T>,
    place: &mut Option<T>,
) -> Result<(), Fault>
    ensures { result_and result (Ok place.new) ≡ optional_of field slot.now }
{
    match slot {
        None => *place = None,
        Some(Ok(value)) => {
            // Where it stands: `Some(*value)` would be made elsewhere and moved.
            let held = place.get_or_insert_default();
            *held = *value;
        }
        Some(Err(f)) => return at_field(field, Err(*f)),
    }
    Ok(())
}

/// Sets a field that may be missing, or be there and count as missing.
pub fn set_lenient<T: Copy + Default + Drop>(
    field: u32,
    slot: &Slot<Option<T>>,
    place: &mut Option<T>,
) -> Result<(), Fault>
    ensures { result_and result (Ok place.new) ≡ lenient_of field slot.now }
{
    match slot {
        None | Some(Ok(None)) => *place = None,
        Some(Ok(Some(value))) => {
            // Where it stands, as in `set_optional`.
            let held = place.get_or_insert_default();
            *held = *value;
        }
        Some(Err(_)) => return set_needed(field, slot, place),
    }
    Ok(())
}
