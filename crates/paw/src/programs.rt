// The C faces of the verifier and the loader.
ghost use Rattle.std.specs.Prelude.{◌≡◌};
ghost use Rattle.verifier.specs.Verify.{verify_of};
ghost use Rattle.loader.specs.Load.{load_of, memory_after_load};
ghost use Rattle.answers.specs.Answers.{answer_word};

// Puts checks 2 to 14 to a file.
#[unsafe(no_mangle)]
pub extern "C" fn paw_verify(file: &[u8]) -> u64
    ensures { result ≡ answer_word (verify_of file.now) }
{
    answers::answer_word(verifier::verify(file))
}

// Puts checks 1 to 14 and loads the program. A refusal leaves memory as it was.
#[unsafe(no_mangle)]
pub extern "C" fn paw_load(file: &[u8], memory: &mut [u8]) -> u64
    ensures { (result ≡ answer_word (load_of file.now memory.old))
        × (memory.new ≡ memory_after_load file.now memory.old) }
{
    answers::answer_word(loader::load(file, memory))
}
