// The day of an instant, and its second of that day. An instant is given in whole seconds from 1970-01-01 0h UTC.
ghost use Rattle.std.specs.Prelude.{◌≡◌};
ghost use Rattle.integers.specs.Quotients.{floor_quot, floor_rem};

pub const MINUTES_IN_DAY: u64 = 1440;

// The number of the instant's day: rounded down, also before 1970.
pub fn day_of(seconds: i64) -> i64
    ensures { result ≡ floor_quot seconds 86400 }
{
    seconds.div_euclid(86400)
}

// The second of the instant's day, from 0 to 86,399, also before 1970.
pub fn second_of_day(seconds: i64) -> u64
    ensures { result ≡ floor_rem seconds 86400 }
{
    seconds.rem_euclid(86400) as u64
}
