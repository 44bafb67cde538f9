ghost use Rattle.std.specs.Prelude.{◌≡◌};
ghost use Rattle.sums.specs.Sum.{added_to};

// The sum so far, 0 before the first call, with one halfword more. Sums wrap, so
// the halfwords may come in any order.
pub fn add_to_sum(sum: u16, h: u16) -> u16
    ensures { result ≡ added_to sum h }
{
    sum.wrapping_add(h)
}
