// An i64's parts as numbers without a sign.
ghost use Rattle.std.specs.Prelude.{◌≡◌};
ghost use Rattle.integers.specs.Parts.{P, N};

// How far a number is above 0 (`above`) or below 0 (`below`). Each is 0 on the other side.
pub fn above(z: i64) -> u64
    ensures { result ≡ P z }
{
    z.max(0).unsigned_abs()
}

pub fn below(z: i64) -> u64
    ensures { result ≡ N z }
{
    z.min(0).unsigned_abs()
}
