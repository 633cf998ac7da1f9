// The prayer in force at an instant of a row's day, the next one and the time until it. The instant is checked before anything else.
ghost use Rattle.std.specs.Prelude.{◌≡◌};
ghost use Rattle.refusals.specs.Refusals.{refusal, instant_beyond, none_in_force};
ghost use Rattle.days.specs.Calls.{instant_fits, work_at_of, prayer_at_of, next_at_of, remaining_at_of};

use super::day::work_day;
use models::prayer::Prayer;
use refusals::{INSTANT_BEYOND, NONE_IN_FORCE, Refusal};
use schedule::in_force::{HoursMinutes, IN_SECOND, Instant};
use schedule::prayer_times::PrayerTimes;

// The instants that 10 does not refuse.
const LEAST_SECONDS: i64 = -1000000000000;

const MOST_SECONDS: i64 = 1000000000000;

const MOST_NANOSECONDS: u32 = IN_SECOND as u32 - 1;

#[tactic(auto, unfolding(crate::specs::Calls::instant_fits))]
fn instant_fits(instant: Instant) -> bool
    ensures { result ≡ instant_fits instant }
{
    LEAST_SECONDS <= instant.seconds
        && instant.seconds <= MOST_SECONDS
        && instant.nanoseconds <= MOST_NANOSECONDS
}

// The times of the row's day, for an instant that is in range.
#[tactic(auto, unfolding(crate::specs::Calls::work_at_of))]
fn work_at(order: &[u8], row: u32, instant: Instant) -> Result<PrayerTimes, Refusal>
    ensures { result ≡ work_at_of order.now row instant }
{
    if instant_fits(instant) {
        return work_day(order, row);
    }
    Err(Refusal::new(INSTANT_BEYOND, 0))
}

// Next or remaining asked while no prayer is in force.
fn none_in_force() -> Refusal
    ensures { result ≡ refusal none_in_force 0 }
{
    Refusal::new(NONE_IN_FORCE, 0)
}

#[tactic(auto, unfolding(crate::specs::Calls::prayer_at_of, crate::specs::Calls::in_force_of))]
pub fn prayer_at(order: &[u8], row: u32, instant: Instant) -> Result<Option<Prayer>, Refusal>
    ensures { result ≡ prayer_at_of order.now row instant }
{
    Ok(work_at(order, row, instant)?.current_time(instant))
}

#[tactic(auto, unfolding(crate::specs::Calls::next_at_of, crate::specs::Calls::next_prayer_of, crate::specs::Calls::next_prayer_in))]
pub fn next_at(order: &[u8], row: u32, instant: Instant) -> Result<Prayer, Refusal>
    ensures { result ≡ next_at_of order.now row instant }
{
    let next = work_at(order, row, instant)?.next(instant);
    next.ok_or(none_in_force())
}

#[tactic(auto, unfolding(crate::specs::Calls::remaining_at_of, crate::specs::Calls::time_until_of, crate::specs::Calls::time_until_in))]
pub fn remaining_at(order: &[u8], row: u32, instant: Instant) -> Result<HoursMinutes, Refusal>
    ensures { result ≡ remaining_at_of order.now row instant }
{
    let remaining = work_at(order, row, instant)?.time_remaining(instant);
    remaining.ok_or(none_in_force())
}
