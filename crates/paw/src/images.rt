// The C faces of the check, the sum of a block, the block reader and the packer.
ghost use Rattle.std.specs.Prelude.{◌≡◌, length};
ghost use Rattle.sums.specs.Sum.{added_to};
ghost use Rattle.image.specs.Check.{check_of};
ghost use Rattle.reader.specs.Reader.{given_of};
ghost use Rattle.packer.specs.Pack.{pack_of, output_of};
ghost use Rattle.answers.specs.Answers.{answer_word, given_word, packed_number};

// Puts checks 2 to 8 to a file.
#[unsafe(no_mangle)]
pub extern "C" fn paw_check(file: &[u8]) -> u64
    ensures { result ≡ answer_word (check_of file.now) }
{
    answers::answer_word(image::check(file))
}

// The sum so far of a block's halfwords, with one halfword more.
#[unsafe(no_mangle)]
pub extern "C" fn paw_add_to_sum(sum: u16, halfword: u16) -> u16
    ensures { result ≡ added_to sum halfword }
{
    sums::add_to_sum(sum, halfword)
}

// What the reader of a file answers to its call number `n`, from 0: the refusal
// of the file, where block `n` stands in it, or that none is left.
#[unsafe(no_mangle)]
pub extern "C" fn paw_block(file: &[u8], n: usize) -> u64
    ensures { result ≡ given_word (given_of file.now n) }
{
    answers::given_word(reader::given_at(file, n))
}

// Writes the image of a code to an output of exactly its length. A refusal
// leaves the output as it was.
#[unsafe(no_mangle)]
pub extern "C" fn paw_pack(code: &[u16], w: u16, l: u16, out: &mut [u8]) -> u32
    ensures { (result ≡ packed_number (pack_of code.now w l (length out.old)))
        × (out.new ≡ output_of code.now w l out.old) }
{
    answers::packed_number(packer::pack(code, w, l, out))
}
