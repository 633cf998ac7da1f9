// prayer.rs: the prayers in their order through the day, sunrise and Qiyam among them.
ghost use Rattle.std.specs.Prelude.{◌≡◌};
ghost use Rattle.models.specs.Numbers.{prayer_number_of, prayer_of};
ghost use Rattle.models.specs.NumbersLaws.{prayer_back};
ghost use Rattle.models.specs.Names.{is_friday_of, prayer_name_of, letters_of};

use super::numbered::Numbered;
use calendar::dates::weekday;
use calendar::instants::day_of;

#[derive(Clone, Copy)]
pub enum Prayer {
    Fajr = 1,
    Sunrise,
    Dhuhr,
    Asr,
    Maghrib,
    Isha,
    Qiyam,
    FajrTomorrow,
}

// The names. Friday's Dhuhr has a name of its own.
#[derive(Clone, Copy)]
pub enum Name {
    Fajr,
    Sunrise,
    Dhuhr,
    Jumua,
    Asr,
    Maghrib,
    Isha,
    Qiyam,
}

impl Name {
    // Seven letters: a shorter name has blanks behind it. No `&str`: the contract, `letters_of`, has the blanks.
    pub fn letters(self) -> [u8; 7]
        ensures { result ≡ letters_of self }
    {
        match self {
            Name::Fajr => *b"Fajr   ",
            Name::Sunrise => *b"Sunrise",
            Name::Dhuhr => *b"Dhuhr  ",
            Name::Jumua => *b"Jumua  ",
            Name::Asr => *b"Asr    ",
            Name::Maghrib => *b"Maghrib",
            Name::Isha => *b"Isha   ",
            Name::Qiyam => *b"Qiyam  ",
        }
    }
}

// Whether the day of an instant, in seconds from 1970-01-01 0h UTC, is a Friday.
#[tactic(auto, unfolding(crate::specs::Names::is_friday_of))]
fn is_friday(seconds: i64) -> bool
    ensures { result ≡ is_friday_of seconds }
{
    weekday(day_of(seconds)) == 5
}

impl Prayer {
    // Its name at an instant. The crate reads the clock; here the instant is given.
    #[tactic(auto, unfolding(crate::specs::Names::prayer_name_of))]
    pub fn name(self, seconds: i64) -> Name
        ensures { result ≡ prayer_name_of self seconds }
    {
        match self {
            Prayer::Fajr | Prayer::FajrTomorrow => Name::Fajr,
            Prayer::Sunrise => Name::Sunrise,
            Prayer::Dhuhr if is_friday(seconds) => Name::Jumua,
            Prayer::Dhuhr => Name::Dhuhr,
            Prayer::Asr => Name::Asr,
            Prayer::Maghrib => Name::Maghrib,
            Prayer::Isha => Name::Isha,
            Prayer::Qiyam => Name::Qiyam,
        }
    }
}

// The number is the prayer's position in the list, from 1; 0 is none in force.
impl Numbered for Prayer {
    ghost number_of = { prayer_number_of };

    ghost case_of = { prayer_of };

    ghost back = { prayer_back };

    fn number(self) -> u32 {
        self as u32
    }

    #[tactic(auto, unfolding(crate::specs::Numbers::prayer_of))]
    fn of_number(n: u32) -> Prayer {
        match n {
            1 => Prayer::Fajr,
            2 => Prayer::Sunrise,
            3 => Prayer::Dhuhr,
            4 => Prayer::Asr,
            5 => Prayer::Maghrib,
            6 => Prayer::Isha,
            7 => Prayer::Qiyam,
            _ => Prayer::FajrTomorrow,
        }
    }
}
