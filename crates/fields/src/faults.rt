// The refusals of a single field's form. Both readers check in the same order: header cut, unknown tag, tag again, wrong length, value
// cut.
ghost use Rattle.std.specs.Prelude.{◌≡◌};
ghost use Rattle.refusals.specs.Refusals.{refusal, unless_refused};
ghost use Rattle.fields.specs.Fields.{fault_in};

use super::tags::{known, length_fits};
use refusals::{FIELD_AGAIN, FIELD_CUT, FIELD_UNKNOWN, Refusal};

pub(crate) const LONGEST_ORDER: usize = 1024;

// The bytes before a value: its tag and its length.
pub(crate) const HEADER_LENGTH: usize = 3;

// Checks the field whose tag byte is at `at`. `left` bytes remain from there on. `again` is true if a field before it has its tag.
pub(crate) fn check_field(
    at: u32,
    left: usize,
    tag: u32,
    length: u32,
    again: bool,
) -> Result<(), Refusal>
    ensures { result ≡ unless_refused (refusal (fault_in tag length again left) at) tt }
{
    if left < HEADER_LENGTH {
        return Err(Refusal::new(FIELD_CUT, at));
    }
    if !known(tag) {
        return Err(Refusal::new(FIELD_UNKNOWN, at));
    }
    if again {
        return Err(Refusal::new(FIELD_AGAIN, at));
    }
    if !length_fits(tag, length) {
        return Err(Refusal::new(FIELD_UNKNOWN, at));
    }
    if left - HEADER_LENGTH < length as usize {
        return Err(Refusal::new(FIELD_CUT, at));
    }
    Ok(())
}
