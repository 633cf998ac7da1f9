// The library's version.
ghost use Rattle.std.specs.Prelude.{◌≡◌};
ghost use Rattle.katchidul.specs.Exports.{version};

// KATCHIDUL_VERSION of include/katchidul.h: the major number times 65,536, plus the minor number.
const VERSION: u32 = 0x1_0000;

pub fn katchidul_version() -> u32
    ensures { result ≡ version }
{
    VERSION
}
