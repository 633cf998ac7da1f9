// The rules that an order may choose in place of the source's (added). They are kept apart from Parameters, which stay the source's own.
ghost use Rattle.std.specs.Prelude.{◌≡◌};
ghost use Rattle.models.specs.Numbers.{midnight_number_of, midnight_of, southern_number_of, southern_of};
ghost use Rattle.models.specs.NumbersLaws.{midnight_back, southern_back};
ghost use Rattle.models.specs.Chosen.{source_rules};

use super::numbered::Numbered;

// What an hour number that rounds to hour 24 gives.
#[derive(Clone, Copy)]
pub enum Midnight {
    // It has no time: the source's rule.
    Stops,
    // It is 00:00 of the date after the one taken.
    Carries,
}

impl Numbered for Midnight {
    ghost number_of = { midnight_number_of };

    ghost case_of = { midnight_of };

    ghost back = { midnight_back };

    fn number(self) -> u32 {
        self as u32
    }

    #[tactic(auto, unfolding(crate::specs::Numbers::midnight_of))]
    fn of_number(n: u32) -> Midnight {
        match n {
            0 => Midnight::Stops,
            _ => Midnight::Carries,
        }
    }
}

// How the days of the season are counted south of the equator.
#[derive(Clone, Copy)]
pub enum Southern {
    // From the June solstice, and not reduced: the source's count.
    Unreduced,
    // From the June solstice, where the count starts again at 0.
    StartsAgain,
}

impl Numbered for Southern {
    ghost number_of = { southern_number_of };

    ghost case_of = { southern_of };

    ghost back = { southern_back };

    fn number(self) -> u32 {
        self as u32
    }

    #[tactic(auto, unfolding(crate::specs::Numbers::southern_of))]
    fn of_number(n: u32) -> Southern {
        match n {
            0 => Southern::Unreduced,
            _ => Southern::StartsAgain,
        }
    }
}

#[derive(Clone, Copy)]
pub struct Rules {
    pub midnight: Midnight,
    pub southern: Southern,
}

// What the season depends on besides the date.
#[derive(Clone, Copy)]
pub struct Season {
    pub latitude: f64,
    pub southern: Southern,
}

impl Rules {
    // The source's rules.
    pub fn source() -> Rules
        ensures { result ≡ source_rules }
    {
        Rules {
            midnight: Midnight::Stops,
            southern: Southern::Unreduced,
        }
    }
}
