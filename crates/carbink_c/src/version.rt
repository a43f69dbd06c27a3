//! The version of the library.

ghost use Rattle.std.specs.Prelude.{◌≡◌};

/// The version of the library: 1,000,000 times the first number, 1,000 times the second, and the
/// third.
#[unsafe(no_mangle)]
pub extern "C" fn carbink_version() -> u32
    ensures { result ≡ 3000 }
{
    3_000
}
