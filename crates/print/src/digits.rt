// The digits of a number, at the end of a buffer, the last one first: a number gives its last digit, and then has one less.
ghost use Rattle.std.specs.Prelude.{◌≡◌, ◌≤◌, length, drop};
ghost use Rattle.print.specs.Text.{bits_of, decimal_of};

// In decimal, and answers where they begin. A number of 64 bits has 20 digits at most.
pub fn decimal(n: u64, out: &mut [u8; 20]) -> usize
    ensures in_bounds { result ≤ 20 }
    ensures digits { drop result out.new ≡ decimal_of n }
{
    let mut at: usize = 19;
    out[19] = crate::digit((n % 10) as u8);
    let mut rest = n / 10;
    while 0 < rest {
        at -= 1;
        out[at] = crate::digit((rest % 10) as u8);
        rest /= 10;
    }
    at
}

// All 64 bits in hexadecimal.
pub fn hexadecimal(n: u64, out: &mut [u8; 16])
    ensures { out.new ≡ bits_of n }
{
    let mut at: usize = 16;
    let mut rest = n;
    while 0 < at {
        at -= 1;
        out[at] = crate::digit((rest % 16) as u8);
        rest /= 16;
    }
}
