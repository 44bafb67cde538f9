// The two totals: how many halfwords are defined, and how many codes of two
// instructions that end in HALT with note 0 are fit.

// Whether the code of a halfword and HALT with note 0 is fit.
fn is_fit(h: u16) -> bool {
    let mut block = [0u8; 512];
    let _ = packer::pack(&[h, 0], 256, 256, &mut block);
    verifier::verify(&block).is_ok()
}

pub(crate) fn print_totals(rt: &impl Print) {
    let defined = (0..=0xFFFFu16)
        .filter(|&h| isa::decode(h).is_some())
        .count();
    let fit = (0..=0xFFFFu16).filter(|&h| is_fit(h)).count();
    let _ = println!(rt; "defined halfwords: {defined}");
    let _ = println!(rt; "fit codes of two instructions, the second 0x0000: {fit}");
}
