// What an order's fields give: by tag, the part of the order that is the tag's value. After the fields are collected, reading uses nothing
// else.
ghost use Rattle.std.specs.Prelude.{◌≡◌};
ghost use Rattle.std.specs.Option.{option_copied};
ghost use Rattle.fields.specs.Values.{no_part, no_fields, has_in, part_for, part_in, get_in, given_by};

use super::tags::TAGS;

// Where a value is in its order. Both are 0 if there is none: no value begins at 0, because its header is before it.
#[repr(C)]
#[derive(Clone, Copy)]
pub struct Part {
    pub at: u32,
    pub length: u32,
}

impl Part {
    // No Option: C takes a part as its two numbers.
    const NONE: Part = Part { at: 0, length: 0 };
}

// The part of each tag, by tag.
#[derive(Clone, Copy)]
pub struct Fields {
    pub parts: [Part; TAGS],
}

impl Fields {
    pub(crate) fn none() -> Fields
        ensures { result ≡ no_fields }
    {
        Fields {
            parts: [Part::NONE; TAGS],
        }
    }

    pub fn part(&self, tag: u32) -> Part
        ensures { result ≡ part_for self.now tag }
    {
        self.parts.get(tag as usize).copied().unwrap_or(Part::NONE)
    }

    pub fn has(&self, tag: u32) -> bool
        ensures { result ≡ has_in self.now tag }
    {
        self.part(tag).at > 0
    }
}

// The bytes of a part, as a slice of the order itself. A part that ends beyond the order gives only the bytes that are in it.
pub fn bytes(order: &[u8], part: Part) -> &[u8]
    ensures { result.now ≡ part_in order.now part }
{
    let start = order.len().min(part.at as usize);
    let rest = &order[start..];
    &rest[..rest.len().min(part.length as usize)]
}

// An order with its fields.
#[derive(Clone, Copy)]
pub struct Given<'a> {
    pub order: &'a [u8],
    pub fields: &'a Fields,
}

impl<'a> Given<'a> {
    #[tactic(auto, unfolding(crate::specs::Values::values_in))]
    pub fn has(self, tag: u32) -> bool
        ensures { result ≡ (given_by self.entry).has tag }
    {
        self.fields.has(tag)
    }

    #[tactic(auto, unfolding(crate::specs::Values::values_in))]
    pub fn part(self, tag: u32) -> Part
        ensures { result ≡ (given_by self.entry).part tag }
    {
        self.fields.part(tag)
    }

    // The bytes of a tag's value; none if the tag is missing.
    #[tactic(auto, unfolding(crate::specs::Values::values_in))]
    pub fn value(self, tag: u32) -> &'a [u8]
        ensures { result.now ≡ (given_by self.entry).value tag }
    {
        bytes(self.order, self.part(tag))
    }

    // The bytes of a tag's value, if the order has the tag.
    pub fn get(self, tag: u32) -> Option<&'a [u8]>
        ensures { option_copied result ≡ get_in (given_by self.entry) tag }
    {
        if self.has(tag) {
            Some(self.value(tag))
        } else {
            None
        }
    }
}
