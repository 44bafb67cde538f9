// The C faces of the assembler and the lister.
ghost use Rattle.std.specs.Prelude.{◌≡◌, length};
ghost use Rattle.assembler.specs.Assemble.{assemble_of};
ghost use Rattle.assembler.specs.Assembled.{assembled_as, output_after};
ghost use Rattle.lister.specs.List.{list_of, listed_as};
ghost use Rattle.lister.specs.List as listed;
ghost use Rattle.paw_tools.specs.Answers.{assembled_word, listed_word};

use super::answers::{assembled_word, listed_word};

// Writes the code of a text to an output that has room for it. A refusal leaves
// the output as it was.
#[unsafe(no_mangle)]
pub extern "C" fn paw_assemble(text: &[u8], out: &mut [u16]) -> u64
    ensures { (result ≡ assembled_word (assembled_as (assemble_of text.now (length out.old))))
        × (out.new
        ≡ output_after (assemble_of text.now (length out.old)) out.old) }
{
    assembled_word(assembler::assemble(text, out))
}

// Writes the listing of a code to an output that has room for it. A refusal
// leaves the output as it was.
#[unsafe(no_mangle)]
pub extern "C" fn paw_list(code: &[u16], out: &mut [u8]) -> u64
    ensures { (result ≡ listed_word (listed_as (list_of code.now (length out.old))))
        × (out.new
        ≡ listed.output_after (list_of code.now (length out.old)) out.old) }
{
    listed_word(lister::list(code, out))
}
