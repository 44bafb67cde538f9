ghost use Rattle.std.specs.Prelude.{◌≡◌};
ghost use Rattle.paw.specs.Version.{version};

// Major, minor and patch, a byte each: the header and the Rust crate tell the
// same, and tests hold them to it.
const VERSION: u32 = 0x000500;

// The library's version as one number, larger for a later one.
#[unsafe(no_mangle)]
pub extern "C" fn paw_version() -> u32
    ensures { result ≡ version }
{
    VERSION
}
