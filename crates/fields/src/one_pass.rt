// The reader of the fields (request 5). It goes over them once, and collects as it checks. The collected values tell which tags it has
// seen.
ghost use Rattle.std.specs.Prelude.{◌≡◌, ◌≤◌, length};
ghost use Rattle.fields.specs.Fields.{longest_order};
ghost use Rattle.fields.specs.Values.{checked_of};

use super::faults::{HEADER_LENGTH, LONGEST_ORDER, check_field};
use super::numbers::{byte, unsigned};
use super::values::{Fields, Part};
use refusals::{FIELD_CUT, Refusal};

fn pass(order: &[u8]) -> Result<Fields, Refusal>
    requires { length order.now ≤ longest_order }
    ensures { result ≡ checked_of order.now }
{
    let mut fields = Fields::none();
    let mut at = 0;
    // A `while`: how far a step goes is what the field at hand says.
    while at < order.len() {
        // `check_field` tests this too. Here it spares `byte` and `unsigned` their own tests.
        let left = order.len() - at;
        if left < HEADER_LENGTH {
            return Err(Refusal::new(FIELD_CUT, at as u32));
        }
        let tag = byte(order, at);
        let length = unsigned(order, at + 1);
        check_field(at as u32, left, tag, length, fields.has(tag))?;
        let start = at + HEADER_LENGTH;
        fields.parts[tag as usize] = Part {
            at: start as u32,
            length,
        };
        at = start + length as usize;
    }
    Ok(fields)
}

pub fn fields_of(order: &[u8]) -> Result<Fields, Refusal>
    ensures { result ≡ checked_of order.now }
{
    if LONGEST_ORDER < order.len() {
        return Err(Refusal::new(FIELD_CUT, 0));
    }
    pass(order)
}
