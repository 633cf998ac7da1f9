// What a call that writes cells returns.
ghost use Rattle.std.specs.Prelude.{◌≡◌};
ghost use Rattle.pages.specs.Answers.{refused_of};

use refusals::Refusal;

// How many rows were written, and their dots. Both are 0 if the call is refused.
#[repr(C)]
#[derive(Clone, Copy)]
pub struct Punched {
    pub refusal: Refusal,
    pub rows: u32,
    pub dots: u32,
}

impl Punched {
    pub fn refused(refusal: Refusal) -> Punched
        ensures { result ≡ refused_of refusal }
    {
        Punched {
            refusal,
            rows: 0,
            dots: 0,
        }
    }
}
