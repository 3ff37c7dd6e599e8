//! The version of the library.
ghost use Rattle.std.specs.Prelude.{◌≡◌};

use crate::statuses::OK;

/// The version of the library, 1.2.3 as 1, 2 and 3. The status is 0.
#[unsafe(no_mangle)]
pub extern "C" fn bearoff_library_version(major: &mut u16, minor: &mut u16, patch: &mut u16) -> u32
    ensures status { result ≡ 0 }
    ensures major { major.new ≡ 1 }
    ensures minor { minor.new ≡ 0 }
    ensures patch { patch.new ≡ 0 }
{
    *major = 1;
    *minor = 0;
    *patch = 0;
    OK
}
