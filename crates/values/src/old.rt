// Values as the Rust shows them: its names and widths, and its faults.
ghost use Rattle.std.specs.Prelude.{◌≡◌};
ghost use Rattle.values.specs.Old.{long_of, value_of};

use crate::real::number_of;
use fields::{be_i8, be_i16, be_i24, be_i32, be_i48, be_i64, be_u64};

// The Rust's `Option<Payload>`.
#[derive(Clone, Copy)]
pub enum Value {
    Null,
    I8(i8),
    I16(i16),
    I32(i32),
    I64(i64),
    F64 { number: f64, bits: u64 },
    // Where the bytes stand, and how many there are.
    Blob { at: usize, len: usize },
    Text { at: usize, len: usize },
}

// The value of a serial type whose bytes begin the part, which stands at `at` of the caller's bytes.
pub fn value_of(serial: u64, part: &[u8], at: usize) -> Value
    ensures { result ≡ value_of serial at part.now }
{
    match serial {
        0 => Value::Null,
        1 => Value::I8(be_i8(part)),
        2 => Value::I16(be_i16(part)),
        3 => Value::I32(be_i24(part)),
        4 => Value::I32(be_i32(part)),
        5 => Value::I64(be_i48(part)),
        6 => Value::I64(be_i64(part)),
        7 => {
            let bits = be_u64(part);
            Value::F64 {
                number: number_of(bits),
                bits,
            }
        }
        // The Rust shows 0 for both, and so does this reading.
        8 | 9 => Value::I8(0),
        _ => long(serial, at),
    }
}

// A text or a blob, by its type; with no bytes it is null.
fn long(serial: u64, at: usize) -> Value
    ensures { result ≡ long_of serial at }
{
    if serial < 14 {
        return Value::Null;
    }
    let len = ((serial - 12) / 2) as usize;
    if serial % 2 == 0 {
        return Value::Blob { at, len };
    }
    Value::Text { at, len }
}
