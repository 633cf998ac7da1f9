// The prayer in force at an instant, and the next one.
ghost use Rattle.std.specs.Prelude.{◌≡◌};
ghost use Rattle.days.specs.Calls.{instant_of, next_at_of};
ghost use Rattle.katchidul.specs.Exports.{prayer_answer_of, prayer_got, next_answer_of};
ghost use Rattle.schedule.specs.InForce.{current_number_of};

use days::in_force::{next_at, prayer_at};
use models::numbered::Numbered;
use models::prayer::Prayer;
use refusals::Refusal;
use schedule::in_force::Instant;

#[repr(C)]
#[derive(Clone, Copy)]
pub struct KatchidulPrayer {
    pub refusal: Refusal,
    pub prayer: u32,
}

fn current_number(current: Option<Prayer>) -> u32
    ensures { result ≡ current_number_of current }
{
    match current {
        Some(prayer) => prayer.number(),
        None => 0,
    }
}

fn prayer_answer(answer: Result<Option<Prayer>, Refusal>) -> KatchidulPrayer
    ensures { result ≡ prayer_answer_of answer }
{
    match answer {
        Ok(current) => KatchidulPrayer {
            refusal: Refusal::none(),
            prayer: current_number(current),
        },
        Err(refusal) => KatchidulPrayer { refusal, prayer: 0 },
    }
}

pub fn katchidul_prayer_at(
    order: &[u8],
    row: u32,
    seconds: i64,
    nanoseconds: u32,
) -> KatchidulPrayer
    ensures { result ≡ prayer_got order.now row (instant_of seconds nanoseconds) }
{
    prayer_answer(prayer_at(
        order,
        row,
        Instant {
            seconds,
            nanoseconds,
        },
    ))
}

fn next_answer(answer: Result<Prayer, Refusal>) -> KatchidulPrayer
    ensures { result ≡ next_answer_of answer }
{
    match answer {
        Ok(prayer) => KatchidulPrayer {
            refusal: Refusal::none(),
            prayer: prayer.number(),
        },
        Err(refusal) => KatchidulPrayer { refusal, prayer: 0 },
    }
}

pub fn katchidul_next_at(order: &[u8], row: u32, seconds: i64, nanoseconds: u32) -> KatchidulPrayer
    ensures { result ≡ next_answer_of (next_at_of order.now row (instant_of seconds nanoseconds)) }
{
    next_answer(next_at(
        order,
        row,
        Instant {
            seconds,
            nanoseconds,
        },
    ))
}
