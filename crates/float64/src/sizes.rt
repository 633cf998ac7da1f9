// The size of a float.
ghost use Rattle.std.specs.Prelude.{◌≡◌};
ghost use Rattle.float64.specs.Sizes.{abs_of, is_normal_of};

// x with its sign bit cleared.
#[tactic(auto, using(crate::proofs::Methods::abs_is))]
pub fn abs(x: f64) -> f64
    ensures { result ≡ abs_of x }
{
    x.abs()
}

// Finite, and at least 2^-1022 in size.
#[tactic(auto, using(crate::proofs::Methods::normal_is))]
pub fn is_normal(x: f64) -> bool
    ensures { result ≡ is_normal_of x }
{
    x.is_normal()
}
