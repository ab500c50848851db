//! The version of the library.

ghost use Rattle.std.specs.Prelude.{◌≡◌};

/// The version 0.1.0: 1,000,000 times the major number, 1,000 times the minor one, and the patch.
const VERSION: u32 = 1000;

/// The number of the library's version, that of JUICEDELTA_VERSION_NUMBER in its header.
#[unsafe(no_mangle)]
pub extern "C" fn juicedelta_version() -> u32
    ensures { result ≡ 1000 }
{
    VERSION
}
