// The registers, the flags and the note that HALT leaves. R15 is the PC.
#[repr(C)]
#[derive(Clone, Copy, PartialEq, Eq, Debug, Default)]
pub struct Machine {
    pub regs: [u16; 16],
    pub n: bool,
    pub z: bool,
    pub c: bool,
    pub v: bool,
    pub note: u8,
}
