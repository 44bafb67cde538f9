// The image of a code.
ghost use Rattle.std.specs.Prelude.{◌≤◌};
ghost use Rattle.image.specs.Format.{most_bytes};

use super::arguments::Window;
use super::complaints::say_refusal;
use std::io;

// The bytes of an image of `n` halfwords. Of more than an image holds the packer
// says so before it looks at the output.
fn image_bytes(n: usize) -> usize
    ensures { result ≤ most_bytes }
{
    n.min(image::MOST_CODE).div_ceil(image::BLOCK_CODE) * image::BLOCK_BYTES
}

// Packs the code into an output of the image's length and writes it, or says why not.
// Fails where standard output does.
pub(crate) fn pack(rt: &(impl Print + Eprint), code: &[u16], window: Window) -> io::Result<()> {
    let mut space = [0u8; image::MOST_BYTES];
    let out = &mut space[..image_bytes(code.len())];
    match packer::pack(code, window.start, window.length, out) {
        Ok(()) => rt.write_all(out),
        Err(refusal) => {
            say_refusal(rt, refusal, code.len(), window);
            Ok(())
        }
    }
}
