// The columns of a row whose record was checked: each type and its width is there, so that none has to be answered for.
//
// Both functions answer a number for every input. That they come to the columns of a checked row, one behind the other, is
// what the laws say.
#![tactic(auto)]

ghost use Rattle.std.specs.Prelude.{◌≡◌};
ghost use Rattle.varint.specs.Varint.{varint_of};
ghost use Rattle.serial.specs.Serial.{width_of};
ghost use Rattle.checked.specs.Whole.{bytes_in, number_by};

use varint::Number;

// The type that begins `s`. It was found within its reading's limit, so that the larger one finds it in both.
pub fn type_in(s: &[u8]) -> Number
    ensures { result ≡ number_by (varint_of 9 s.now) }
{
    varint::read(s, varint::FILE_LIMIT).unwrap_or(Number {
        value: 0,
        length: 0,
    })
}

// How many bytes its value has, of a type that has a width.
pub fn width_in(serial: u64) -> u64
    ensures { result ≡ bytes_in (width_of serial) }
{
    serial::width_of(serial).unwrap_or(0)
}
