// Working the day of a row.
ghost use Rattle.std.specs.Prelude.{◌≡◌};
ghost use Rattle.katchidul.specs.Exports.{day_answer_of, day_got};

use days::day::work_day;
use refusals::Refusal;
use schedule::prayer_times::PrayerTimes;

// In C the times are an array of nine.
#[repr(C)]
#[derive(Clone, Copy)]
pub struct KatchidulDay {
    pub refusal: Refusal,
    pub times: PrayerTimes,
}

fn day_answer(worked: Result<PrayerTimes, Refusal>) -> KatchidulDay
    ensures { result ≡ day_answer_of worked }
{
    match worked {
        Ok(times) => KatchidulDay {
            refusal: Refusal::none(),
            times,
        },
        Err(refusal) => KatchidulDay {
            refusal,
            times: PrayerTimes::NONE,
        },
    }
}

pub fn katchidul_work_day(order: &[u8], row: u32) -> KatchidulDay
    ensures { result ≡ day_got order.now row }
{
    day_answer(work_day(order, row))
}
