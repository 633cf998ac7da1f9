// The time until the next prayer.
ghost use Rattle.std.specs.Prelude.{◌≡◌};
ghost use Rattle.days.specs.Calls.{instant_of, remaining_at_of};
ghost use Rattle.katchidul.specs.Exports.{remaining_answer_of};

use days::in_force::remaining_at;
use refusals::Refusal;
use schedule::in_force::{HoursMinutes, Instant};

#[repr(C)]
#[derive(Clone, Copy)]
pub struct KatchidulRemaining {
    pub refusal: Refusal,
    pub time: HoursMinutes,
}

fn remaining_answer(answer: Result<HoursMinutes, Refusal>) -> KatchidulRemaining
    ensures { result ≡ remaining_answer_of answer }
{
    match answer {
        Ok(time) => KatchidulRemaining {
            refusal: Refusal::none(),
            time,
        },
        Err(refusal) => KatchidulRemaining {
            refusal,
            time: HoursMinutes {
                hours: 0,
                minutes: 0,
            },
        },
    }
}

pub fn katchidul_remaining_at(
    order: &[u8],
    row: u32,
    seconds: i64,
    nanoseconds: u32,
) -> KatchidulRemaining
    ensures { result ≡ remaining_answer_of (remaining_at_of order.now row (instant_of seconds nanoseconds)) }
{
    remaining_answer(remaining_at(
        order,
        row,
        Instant {
            seconds,
            nanoseconds,
        },
    ))
}
