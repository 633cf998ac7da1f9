// The Gregorian calendar on whole numbers: dates by year, month and day, days by number, and the conversions between them.
// Every public function has a result for every argument; specs/Answers.antt says what it returns outside the calendar.
#![tactic(auto)]

mod counts;
pub mod dates;
pub mod instants;
mod months;
pub mod years;
