// The reader of an image's blocks.
ghost use Rattle.std.specs.Prelude.{◌≡◌};
ghost use Rattle.image.specs.Check.{check_of};
ghost use Rattle.reader.specs.Reader.{block_at, given_as, given_of};

use image::{BLOCK_BYTES, Layout, check};
use refusals::Refusal;

// A file that is read block by block, the number of the block that comes next,
// and what the checks said of the file when the reader was made.
#[derive(Clone, Copy)]
pub struct BlockReader<'a> {
    file: &'a [u8],
    next: usize,
    checked: Result<Layout, Refusal>,
}

// The answer to a call at block `next` of an accepted file.
#[tactic(auto, unfolding(crate::specs::Reader::block_at))]
fn block_at(file: &[u8], next: usize) -> Option<usize>
    ensures { result ≡ block_at file.now next }
{
    if next < file.len() / BLOCK_BYTES {
        Some(BLOCK_BYTES * next)
    } else {
        None
    }
}

// The answer to a call at block `next` of a file of which the checks said
// `checked`: a caller with no reader has the three by themselves.
fn given_as(
    file: &[u8],
    next: usize,
    checked: Result<Layout, Refusal>,
) -> Result<Option<usize>, Refusal>
    ensures { result ≡ given_as file.now next checked }
{
    checked?;
    Ok(block_at(file, next))
}

impl<'a> BlockReader<'a> {
    ghost use Rattle.reader.specs.Reader.{open_of, answer_of, next_of, after_next};

    // Puts checks 2 to 8 to the whole file, once, and makes a reader of it.
    pub fn open(file: &'a [u8]) -> BlockReader<'a>
        ensures { result ≡ open_of file.entry }
    {
        let checked = check(file);
        BlockReader {
            file,
            next: 0,
            checked,
        }
    }

    // What the reader answers to its next call: why its file is refused, the
    // byte of the file at which a block starts, or that none is left. The file
    // is not checked again.
    pub fn answer(self) -> Result<Option<usize>, Refusal>
        ensures { result ≡ answer_of self.entry }
    {
        given_as(self.file, self.next, self.checked)
    }

    // Gives the next block, its 512 bytes, and goes on to the one after. It gives
    // no bytes after the last or of a refused file, however often it is called:
    // `answer` tells the one from the other.
    pub fn next_block(&mut self) -> &'a [u8]
        ensures { (result.now ≡ next_of self.old) × (self.new ≡ after_next self.old) }
    {
        match self.answer() {
            Ok(Some(start)) => {
                self.next += 1;
                &self.file[start..start + BLOCK_BYTES]
            }
            _ => &[],
        }
    }
}

// What the reader of a file answers to its call number `n`, from 0, for a caller
// with no reader who knows what the checks said of the file. A block has its 512
// bytes from where it starts.
#[tactic(auto, unfolding(crate::specs::Reader::given_of))]
pub fn given_checked(
    file: &[u8],
    n: usize,
    checked: Result<Layout, Refusal>,
) -> Result<Option<usize>, Refusal>
    requires { checked ≡ check_of file.now }
    ensures { result ≡ given_of file.now n }
{
    given_as(file, n, checked)
}

// The same for a caller who has not checked the file.
pub fn given_at(file: &[u8], n: usize) -> Result<Option<usize>, Refusal>
    ensures { result ≡ given_of file.now n }
{
    given_checked(file, n, check(file))
}
