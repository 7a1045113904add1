// Serial types: what a record's header says of a value, and how many bytes the value takes.
//
// From the file format, 2.1 "Record Format", and the Rust's `SerialType::size`, which panics where `Reserved` is
// answered here.
#![tactic(auto)]

ghost use Rattle.std.specs.Prelude.{◌≡◌};
ghost use Rattle.serial.specs.Serial.{width_of};

use tables::WIDTHS;

// How many bytes a value of the type takes. Texts and blobs of one length are neighbours, the blob first.
pub fn width_of(serial: u64) -> Option<u64>
    ensures { result ≡ width_of serial }
{
    match serial {
        0..=9 => Some(u64::from(WIDTHS[serial as usize])),
        10 | 11 => None,
        _ => Some((serial - 12) / 2),
    }
}
