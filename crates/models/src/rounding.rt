// rounding.rs: how a time is brought to a whole minute.
ghost use Rattle.models.specs.Numbers.{rounding_number_of, rounding_of};
ghost use Rattle.models.specs.NumbersLaws.{rounding_back};

use super::numbered::Numbered;

#[derive(Clone, Copy)]
pub enum Rounding {
    Nearest,
    Up,
    None,
}

impl Numbered for Rounding {
    ghost number_of = { rounding_number_of };

    ghost case_of = { rounding_of };

    ghost back = { rounding_back };

    fn number(self) -> u32 {
        self as u32
    }

    #[tactic(auto, unfolding(crate::specs::Numbers::rounding_of))]
    fn of_number(n: u32) -> Rounding {
        match n {
            0 => Rounding::Nearest,
            1 => Rounding::Up,
            _ => Rounding::None,
        }
    }
}
