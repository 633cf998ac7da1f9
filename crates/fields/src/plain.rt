// The plain reader of the fields (request 5), which follows their definition line by line: one pass checks, another collects. `one_pass` is
// proved equal to it.
ghost use Rattle.std.specs.Prelude.{◌≡◌, false, ◌≤◌, ◌<◌, length, get_or, replicate};
ghost use Rattle.refusals.specs.Refusals.{unless_refused};
ghost use Rattle.fields.specs.Tags.{tags};
ghost use Rattle.fields.specs.Fields.{longest_order, length_at, walk_of, check_of};
ghost use Rattle.fields.specs.Values.{fields_of, checked_of};

use super::faults::{HEADER_LENGTH, LONGEST_ORDER, check_field};
use super::numbers::{byte, unsigned};
use super::tags::TAGS;
use super::values::{Fields, Part};
use refusals::{FIELD_CUT, Refusal};

// The length of the value, as the field at an offset gives it.
fn length_at(order: &[u8], at: usize) -> u32
    requires { at ≤ length order.now }
    ensures value { result ≡ length_at order.now at }
    ensures upper_bound { result < 65536 }
{
    unsigned(order, at + 1)
}

// Whether a field had the tag. False for a number that is no tag.
fn is_seen(seen: &[bool], tag: u32) -> bool
    ensures { result ≡ get_or seen.now tag false }
{
    seen.get(tag as usize).copied().unwrap_or(false)
}

// A `while` here and in `collect`: how far a step goes is what the field at hand says.
fn walk(order: &[u8]) -> Result<(), Refusal>
    requires { length order.now ≤ longest_order }
    ensures { result ≡ unless_refused (walk_of (length order.now) order.now (replicate (length tags) false) 0) tt }
{
    let mut seen = [false; TAGS];
    let mut at = 0;
    while at < order.len() {
        let tag = byte(order, at);
        let length = length_at(order, at);
        check_field(
            at as u32,
            order.len() - at,
            tag,
            length,
            is_seen(&seen, tag),
        )?;
        seen[tag as usize] = true;
        at = at + HEADER_LENGTH + length as usize;
    }
    Ok(())
}

// The first refusal of the fields' form.
fn check(order: &[u8]) -> Result<(), Refusal>
    ensures { result ≡ unless_refused (check_of order.now) tt }
{
    if LONGEST_ORDER < order.len() {
        return Err(Refusal::new(FIELD_CUT, 0));
    }
    walk(order)
}

// The fields of an order that `check` does not refuse.
fn collect(order: &[u8]) -> Fields
    requires { (check_of order.now).number ≡ 0 }
    ensures { result ≡ fields_of order.now }
{
    let mut fields = Fields::none();
    let mut at = 0;
    while at < order.len() {
        let tag = byte(order, at) as usize;
        let length = length_at(order, at);
        let start = at + HEADER_LENGTH;
        fields.parts[tag] = Part {
            at: start as u32,
            length,
        };
        at = start + length as usize;
    }
    fields
}

#[tactic(auto, unfolding(crate::specs::Values::checked_of, refusals::specs::Refusals::unless_refused))]
pub fn fields_of(order: &[u8]) -> Result<Fields, Refusal>
    ensures { result ≡ checked_of order.now }
{
    check(order)?;
    Ok(collect(order))
}
