// Refusals (added): a number, 0 if nothing is refused, and a place. This is the one table of the numbers. A test compares the header with
// it. Each number has its condition, and after the colon its place.
#![tactic(auto)]

ghost use Rattle.std.specs.Prelude.{◌≡◌};
ghost use Rattle.refusals.specs.Refusals.{refusal, no_refusal, or_of};

// The order has over 1,024 bytes: 0. A field is cut: its offset.
pub const FIELD_CUT: u32 = 1;

// A tag is not in the table, or its value can't have the field's length: the field's offset.
pub const FIELD_UNKNOWN: u32 = 2;

// A tag is there a second time: the second field's offset.
pub const FIELD_AGAIN: u32 = 3;

// A tag is missing: the tag.
pub const TAG_MISSING: u32 = 4;

// A value is out of range, or the month lacks the day: the tag. The order lacks the row: 3, the tag of the rows.
pub const OUT_OF_RANGE: u32 = 5;

// A day lacks its transit, its sunrise or its sunset: the day, 0 for the row's date and 1 and 2 for the two after it.
pub const NO_TRANSIT: u32 = 6;

pub const NO_SUNRISE: u32 = 7;

pub const NO_SUNSET: u32 = 8;

// A lent buffer is too short: 0.
pub const BUFFER_SHORT: u32 = 9;

// An instant's whole seconds are below -10^12 or above 10^12, or its nanoseconds are over 999,999,999: 0.
pub const INSTANT_BEYOND: u32 = 10;

// Next or remaining is asked while no prayer is in force: 0.
pub const NONE_IN_FORCE: u32 = 11;

// The second buffer is too short for what a job log's compaction writes: the new record's page, or the count at a restart.
pub const LOG_SECOND_SHORT: u32 = 12;

// A record of a job log, or the one to append, is out of turn, or has an unknown tag or a wrong length: its page.
pub const LOG_OUT_OF_TURN: u32 = 13;

// The embosser's count at a restart is not between the log's finished and sent pages: the count.
pub const LOG_COUNT_OUTSIDE: u32 = 14;

// A coordinate is given both in degrees and as on the map: the tag of the second.
pub const BOTH_FORMS: u32 = 15;

// 16 jobs wait in the print queue: the id of the job that would join.
pub const QUEUE_FULL: u32 = 16;

// A job's id is 0, over 65,535 or that of a job that still waits, or its pages are not from 1 to 16: its id.
pub const JOB_UNFIT: u32 = 17;

// A Ramadan sheet does not begin on the 1st of Ramadan, moved by its shift: 2, the tag of the date.
pub const NOT_FIRST_OF_RAMADAN: u32 = 18;

#[repr(C)]
#[derive(Clone, Copy)]
pub struct Refusal {
    pub number: u32,
    pub place: u32,
}

impl Refusal {
    pub fn new(number: u32, place: u32) -> Refusal
        ensures { result ≡ refusal number place }
    {
        Refusal { number, place }
    }

    // Nothing is refused.
    pub fn none() -> Refusal
        ensures { result ≡ no_refusal }
    {
        Refusal {
            number: 0,
            place: 0,
        }
    }

    // This refusal, or the other if this one refuses nothing.
    pub fn or(self, other: Refusal) -> Refusal
        ensures { result ≡ or_of self other }
    {
        if self.number != 0 {
            return self;
        }
        other
    }
}
