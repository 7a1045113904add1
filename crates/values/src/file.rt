// Values as the file format has them.
ghost use Rattle.std.specs.Prelude.{◌≡◌};
ghost use Rattle.values.specs.File.{long_of, value_of};

use crate::real::number_of;
use fields::{be_i8, be_i16, be_i24, be_i32, be_i48, be_i64, be_u64};

#[derive(Clone, Copy)]
pub enum Value {
    Null,
    Integer(i64),
    Real { number: f64, bits: u64 },
    // Where the bytes stand, and how many there are.
    Blob { at: usize, len: usize },
    Text { at: usize, len: usize },
}

// The value of a serial type whose bytes begin the part, which stands at `at` of the caller's bytes.
pub fn value_of(serial: u64, part: &[u8], at: usize) -> Value
    ensures { result ≡ value_of serial at part.now }
{
    match serial {
        0 => Value::Null,
        1 => Value::Integer(i64::from(be_i8(part))),
        2 => Value::Integer(i64::from(be_i16(part))),
        3 => Value::Integer(i64::from(be_i24(part))),
        4 => Value::Integer(i64::from(be_i32(part))),
        5 => Value::Integer(be_i48(part)),
        6 => Value::Integer(be_i64(part)),
        7 => {
            let bits = be_u64(part);
            Value::Real {
                number: number_of(bits),
                bits,
            }
        }
        8 => Value::Integer(0),
        9 => Value::Integer(1),
        _ => long(serial, at),
    }
}

// A text or a blob, by its type. (Types 10 and 11 have no value: a record with one is refused.)
fn long(serial: u64, at: usize) -> Value
    ensures { result ≡ long_of serial at }
{
    if serial < 12 {
        return Value::Null;
    }
    let len = ((serial - 12) / 2) as usize;
    if serial % 2 == 0 {
        return Value::Blob { at, len };
    }
    Value::Text { at, len }
}
