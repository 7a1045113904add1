// A real by its 64 bits.
ghost use Rattle.std.specs.Prelude.{◌≡◌};
ghost use Rattle.std.specs.Float.{binary64};
ghost use Rattle.std.specs.Float.Ieee.{of_bits};

// The number of a pattern. The patterns of a NaN all give a NaN; the bits that a value carries beside its number say
// which one was written.
pub fn number_of(bits: u64) -> f64
    ensures { result ≡ of_bits binary64 bits }
{
    if bits % 0x8000_0000_0000_0000 <= 0x7ff0_0000_0000_0000 {
        return f64::from_bits(bits);
    }
    let zero = 0.0;
    zero / zero
}
