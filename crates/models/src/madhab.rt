// madhab.rs: the school of law, which sets the time of Asr. It is later for Hanafi than for Shafi.
ghost use Rattle.std.specs.Prelude.{◌≡◌, pos};
ghost use Rattle.models.specs.Numbers.{madhab_number_of, madhab_of};
ghost use Rattle.models.specs.NumbersLaws.{madhab_back};

use super::numbered::Numbered;

#[derive(Clone, Copy)]
pub enum Madhab {
    Shafi = 1,
    Hanafi = 2,
}

impl Madhab {
    // At Asr a shadow is this many times its object's length longer than at noon.
    pub fn shadow(self) -> i32
        ensures { result ≡ pos (madhab_number_of self) }
    {
        self as i32
    }
}

impl Numbered for Madhab {
    ghost number_of = { madhab_number_of };

    ghost case_of = { madhab_of };

    ghost back = { madhab_back };

    fn number(self) -> u32 {
        self as u32
    }

    #[tactic(auto, unfolding(crate::specs::Numbers::madhab_of))]
    fn of_number(n: u32) -> Madhab {
        match n {
            1 => Madhab::Shafi,
            _ => Madhab::Hanafi,
        }
    }
}
