// schedule.rs: the nine times of a date and the prayer in force. They are worked in seconds from 0h of the row's date. `PrayerTimes` has
// them in seconds from 1970-01-01 0h UTC.
#![tactic(auto)]

pub mod angles;
pub mod hours;
pub mod in_force;
pub mod prayer_schedule;
pub mod prayer_times;
pub mod rolling;
mod twilight;
