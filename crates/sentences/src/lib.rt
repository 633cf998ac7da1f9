// Refusals in words (added): a sentence for each refusal, and the refusal that a sentence says.
#![tactic(auto)]

mod line;
mod reading;
pub mod sentence;
mod table;

// What writing returns.
#[repr(C)]
#[derive(Clone, Copy)]
pub struct WrittenSentence {
    pub number: u32,
    pub place: u32,
    pub length: u32,
}

// What reading returns: the number and the place that the sentence says, or why it says none.
#[repr(C)]
#[derive(Clone, Copy)]
pub struct Meaning {
    pub number: u32,
    pub place: u32,
    pub of_number: u32,
    pub of_place: u32,
}
