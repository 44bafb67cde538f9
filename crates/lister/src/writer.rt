// What is written for each instruction of a code: its label, if a branch goes
// there, and its line. What writes is compiled into its caller, as in `operands`.
ghost use Rattle.std.specs.Prelude.{◌≡◌, ◌*◌, ◌<◌, ◌≤◌, length};
ghost use Rattle.units.specs.Address.{byte_address_of};
ghost use Rattle.isa.specs.Decode.{decode_of};
ghost use Rattle.targets.specs.Targets.{mark_words, marked_at};
ghost use Rattle.text.specs.Text.{written};
ghost use Rattle.text.specs.Writes.{Fits, Grew};
ghost use Rattle.lister.specs.List.{label_line, instruction_line, listing_of};
ghost use Rattle.lister.specs.Passes.{lines_with, Labelled};

use super::names::name_of;
use super::operands::put_operands;
use targets::Marks;
use text::{LINE_BYTES, Writer};
use units::{ByteAddress, InstructionIndex};

#[inline(always)]
fn put_label(out: &mut Writer<'_>, a: ByteAddress, marked: bool)
    requires { Fits (label_line marked a) out.old }
    ensures { Grew (label_line marked a) out.old out.new }
{
    if marked {
        out.put(b'a');
        out.put_decimal(a.0);
        out.put_all(b":\n");
    }
}

// The line of the halfword at an address; none for one that is undefined.
#[inline(always)]
pub(crate) fn put_instruction(out: &mut Writer<'_>, a: ByteAddress, h: u16)
    requires { Fits (instruction_line a (decode_of h)) out.old }
    ensures { Grew (instruction_line a (decode_of h)) out.old out.new }
{
    if let Some(name) = name_of(h) {
        out.put_all(&name);
        put_operands(out, a, h);
    }
}

// What is written for the halfword `h`, instruction `i`.
#[inline(always)]
fn put_lines(out: &mut Writer<'_>, marks: &Marks, i: InstructionIndex, h: u16)
    requires i_bound { i.0 < 64 * mark_words }
    requires h_in_bounds { Fits (lines_with (marked_at marks.now i.0) (byte_address_of i) (decode_of h)) out.old }
    ensures { Grew (lines_with (marked_at marks.now i.0) (byte_address_of i) (decode_of h)) out.old out.new }
{
    let a = ByteAddress::from(i);
    put_label(out, a, marks.is_marked(i));
    put_instruction(out, a, h);
}

// Its length: it is written, but not into the output. A label and a line have room
// where a line has.
fn lines_length(marks: &Marks, i: InstructionIndex, h: u16) -> usize
    requires { i.0 < 64 * mark_words }
    ensures { result ≡ length
        (lines_with (marked_at marks.now i.0) (byte_address_of i) (decode_of h)) }
{
    let mut lines = [0u8; LINE_BYTES];
    let mut out = Writer::new(&mut lines);
    put_lines(&mut out, marks, i, h);
    out.at
}

// A code that fits an image, and the marks of its branch targets.
#[derive(Clone, Copy)]
pub(crate) struct Marked<'a> {
    pub(crate) code: &'a [u16],
    pub(crate) marks: &'a Marks,
    ghost labelled: { Labelled code.now marks.now },
}

// Two loops over the same lines: `measure` adds up the lengths of lines that are each
// written into a room of their own, `write` lends all of them the output.
impl Marked<'_> {
    // The length of the listing.
    pub(crate) fn measure(self) -> usize
        ensures { result ≡ length (listing_of self.entry.code.now) }
    {
        let mut n = 0;
        for (k, &h) in self.code.iter().enumerate() {
            n += lines_length(self.marks, InstructionIndex(k as u16), h);
        }
        n
    }

    // Writes the listing at the front of an output that has room for it, and
    // answers its length.
    pub(crate) fn write(self, out: &mut [u8]) -> usize
        requires { length (listing_of self.code.now) ≤ length out.old }
        ensures { (result ≡ length (listing_of self.entry.code.now))
            × (out.new ≡ written 0 (listing_of self.entry.code.now) out.old) }
    {
        let mut text = Writer::new(out);
        for (k, &h) in self.code.iter().enumerate() {
            put_lines(&mut text, self.marks, InstructionIndex(k as u16), h);
        }
        text.at
    }
}
