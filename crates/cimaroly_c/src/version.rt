//! The version of this library.

ghost use Rattle.std.specs.Prelude.{◌≡◌, ◌+◌, ◌*◌};

/// The three numbers of the version (Semantic Versioning 2.0.0), as in the file `VERSION`.
const MAJOR: u32 = 0;

const MINOR: u32 = 1;

const PATCH: u32 = 0;

/// The three numbers in one: the second and the third take a byte each, at the end.
#[unsafe(no_mangle)]
pub extern "C" fn cimaroly_version() -> u32
    ensures { result ≡ MAJOR * 65536 + MINOR * 256 + PATCH }
{
    MAJOR << 16 | MINOR << 8 | PATCH
}
