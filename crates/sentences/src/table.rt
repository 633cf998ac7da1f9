// The words of the refusals, by number and by tag: the lines of specs/Table.antt.
ghost use Rattle.std.specs.Prelude.{◌≡◌};
ghost use Rattle.sentences.specs.Table.{text_of, name_of};

const TEXTS: [&str; 19] = [
    "",
    "Refusal 1: over 1,024 bytes, or cut in the field at byte",
    "Refusal 2: unknown tag or wrong length in the field at byte",
    "Refusal 3: a tag stands a second time in the field at byte",
    "Refusal 4: the order lacks a field:",
    "Refusal 5: a value is out of range, or the month lacks the day:",
    "Refusal 6: the sun has no transit (day 0 is the row's date), day",
    "Refusal 7: the sun does not rise (day 0 is the row's date), day",
    "Refusal 8: the sun does not set (day 0 is the row's date), day",
    "Refusal 9: a lent buffer is too short, place",
    "Refusal 10: an instant is out of range, place",
    "Refusal 11: no prayer is in force, place",
    "Refusal 12: the log's second buffer is too short, page or count",
    "Refusal 13: a record of the log is out of turn, page",
    "Refusal 14: the embosser's count does not fit the log, count",
    "Refusal 15: a coordinate is given in both forms:",
    "Refusal 16: the print queue is full, job id",
    "Refusal 17: the job's id or its pages are not allowed, job id",
    "Refusal 18: the sheet does not begin on the 1st of Ramadan:",
];

// The first is the name of every other tag.
const NAMES: [&str; 21] = [
    " tag",
    " town, tag",
    " first day, tag",
    " rows, tag",
    " latitude, tag",
    " longitude, tag",
    " method, tag",
    " madhab, tag",
    " high latitude rule, tag",
    " rounding, tag",
    " shafaq, tag",
    " minutes, tag",
    " fajr angle, tag",
    " isha angle, tag",
    " isha interval, tag",
    " carry, tag",
    " clock, tag",
    " southern, tag",
    " map latitude, tag",
    " map longitude, tag",
    " ramadan, tag",
];

// A number's text. An unknown number has an empty one.
pub fn text_of(number: u32) -> &'static str
    ensures { result.now ≡ text_of number }
{
    TEXTS.get(number as usize).copied().unwrap_or("")
}

// A tag's name.
pub fn name_of(tag: u32) -> &'static str
    ensures { result.now ≡ name_of tag }
{
    NAMES.get(tag as usize).copied().unwrap_or(NAMES[0])
}
