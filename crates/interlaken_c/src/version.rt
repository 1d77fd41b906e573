//! The version of the library.
ghost use Rattle.std.specs.Prelude.{◌≡◌};

/// The version: 10,000 times its major number, 100 times its minor number, and its patch number.
const VERSION: u32 = 10700;

/// The version of the library, as one number.
#[unsafe(no_mangle)]
pub extern "C" fn interlaken_version() -> u32
    ensures { result ≡ 10700 }
{
    VERSION
}
