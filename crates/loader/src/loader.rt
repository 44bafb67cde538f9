// The load of a program: checks first, then memory.
ghost use Rattle.std.specs.Prelude.{◌≡◌, Ok};
ghost use Rattle.verifier.specs.Verify.{verify_of};
ghost use Rattle.loader.specs.Load.{load_of, memory_after_load, loaded_memory};

use super::copy::{clear_window, copy_code};
use image::Layout;
use refusals::{Check, Refusal};
use units::Memory;

// Puts the code of a fit file to address 0 and clears its window.
fn place(file: &[u8], layout: Layout, memory: &mut Memory)
    requires { verify_of file.now ≡ Ok layout }
    ensures { memory.new ≡ loaded_memory file.now layout memory.old }
{
    copy_code(file, memory, layout.count());
    let start = layout.window_start as usize;
    let end = start + layout.window_length as usize;
    clear_window(memory, start, end);
}

// Puts check 1 to a memory and checks 2 to 14 to a file, and loads the program:
// its code goes to address 0, its window is cleared, and no other byte changes. A
// refusal changes nothing.
#[tactic(auto, unfolding(crate::specs::Load::load_of, crate::specs::Load::memory_after_load))]
pub fn load(file: &[u8], memory: &mut [u8]) -> Result<Layout, Refusal>
    ensures { (result ≡ load_of file.now memory.old)
        × (memory.new ≡ memory_after_load file.now memory.old) }
{
    let Some(memory) = memory.as_mut_array() else {
        return Err(Refusal::new(Check::MemorySize));
    };
    let layout = verifier::verify(file)?;
    place(file, layout, memory);
    Ok(layout)
}
