ghost use Rattle.std.specs.Prelude.{◌≡◌, get_or};
ghost use Rattle.paw.specs.Date.{manual_date};

// Byte `i` of the date on the manual's title page, as text; 0 past its end.
#[unsafe(no_mangle)]
pub extern "C" fn paw_manual_date(i: usize) -> u8
    ensures { result ≡ get_or manual_date i 0 }
{
    isa::MANUAL_DATE.get(i).copied().unwrap_or(0)
}
