// The whole number nearest to the root of m * 2^52, a binary digit at a time: slow, and right for every m.
ghost use Rattle.std.specs.Prelude.{◌*◌, ◌^◌, ◌<◌};
ghost use Rattle.fdlibm_root.specs.Root.{Root};
ghost use Rattle.fdlibm_root.specs.Near.{NearRoot};

// The whole root of m * 2^54. After i turns q is the root of the first 2 i digits of that number, and `left` is those digits less q's
// square. `rest` has the digits of m that are still to come; the next two are at the top of its 54 digits.
fn root(m: u64) -> u64
    requires { m < 2 ^ 54 }
    ensures { (Root (m * 2 ^ 54) result) × (result < 2 ^ 54) }
{
    let mut q: u64 = 0;
    let mut left: u64 = 0;
    let mut rest: u64 = m;
    for _ in 0..54u32 {
        let p = left * 4 + rest / 0x10_0000_0000_0000;
        rest = rest % 0x10_0000_0000_0000 * 4;
        if q * 4 + 1 <= p {
            left = p - (q * 4 + 1);
            q = q * 2 + 1;
        } else {
            left = p;
            q = q * 2;
        }
    }
    q
}

// Half of that root, rounded by its last digit. There is no tie: m * 2^54 is not the square of an odd number.
pub fn by_digits(m: u64) -> u64
    requires { (0 < m) × (m < 2 ^ 54) }
    ensures { NearRoot m result }
{
    (root(m) + 1) / 2
}
