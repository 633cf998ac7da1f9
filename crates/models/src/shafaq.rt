// shafaq.rs: the twilight glow that sets Isha in the MoonsightingCommittee method.
ghost use Rattle.models.specs.Numbers.{shafaq_number_of, shafaq_of};
ghost use Rattle.models.specs.NumbersLaws.{shafaq_back};

use super::numbered::Numbered;

#[derive(Clone, Copy)]
pub enum Shafaq {
    // A combination of the other two.
    General,
    // The red glow, which the Shafi, Maliki and Hanbali madhabs use.
    Ahmer,
    // The white glow, which the Hanafi madhab uses.
    Abyad,
}

impl Numbered for Shafaq {
    ghost number_of = { shafaq_number_of };

    ghost case_of = { shafaq_of };

    ghost back = { shafaq_back };

    fn number(self) -> u32 {
        self as u32
    }

    #[tactic(auto, unfolding(crate::specs::Numbers::shafaq_of))]
    fn of_number(n: u32) -> Shafaq {
        match n {
            0 => Shafaq::General,
            1 => Shafaq::Ahmer,
            _ => Shafaq::Abyad,
        }
    }
}
