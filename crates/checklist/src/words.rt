// What each check asks, in words.
use refusals::Check;

// The lines of a check, of those that a file is put.
pub(crate) fn asked(check: Check) -> &'static str {
    match check {
        Check::FileLength => "  Check 2: the file is 1 to 64 whole blocks of 512 bytes.\n",
        Check::Mark => "  Check 3: every block starts with the mark 0xD0C1.\n",
        Check::Sum => "  Check 4: the 256 halfwords of every block sum to 0 modulo 65536.\n",
        Check::Numbering => {
            "  Check 5: every block tells its number, from 0, and how many there are.\n"
        }
        Check::Filling => {
            "  Check 6: every block but the last has 249 halfwords of code, the last 1 to 249,\n  \
             and behind the code stands 0.\n"
        }
        Check::SameWindow => "  Check 7: every block tells the window that block 0 tells.\n",
        Check::Window => {
            "  Check 8: the window lies behind the code and within memory, is not empty, and 4\n  \
             divides its start w and its length l.\n"
        }
        Check::Defined => "  Check 9: every halfword of the code is an instruction.\n",
        Check::Access => {
            "  Check 10: every load and store lies within the window, as far as the judge can tell.\n"
        }
        Check::Alignment => {
            "  Check 11: 4 divides the base of every LDR and STR, as far as the judge can tell.\n"
        }
        Check::PcWrite => "  Check 12: no instruction writes R15.\n",
        Check::Target => "  Check 13: every branch goes to an instruction of the code.\n",
        Check::LastHalt => "  Check 14: the last instruction is HALT.\n",
        _ => "",
    }
}
