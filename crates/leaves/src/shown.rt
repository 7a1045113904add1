// How a varint and a value are written.
use parts::whole_part;
use print::{bits, hex, number, signed, text};
use std::io;
use std::io::Write;
use values::{file, old};
use varint::{Cause, Number};

// A varint and how many bytes it took.
pub fn found<W: Write>(to: &mut W, v: Result<Number, Cause>) -> io::Result<()> {
    match v {
        Ok(read) => {
            number(to, read.value)?;
            text(to, b" in ")?;
            number(to, read.length as u64)
        }
        Err(_) => text(to, b"none"),
    }
}

// A value of the old reading, whose place is within s.
pub fn old_value<W: Write>(to: &mut W, v: old::Value, s: &[u8]) -> io::Result<()> {
    match v {
        old::Value::Null => text(to, b"null"),
        old::Value::I8(z) => integer(to, b"i8:", i64::from(z)),
        old::Value::I16(z) => integer(to, b"i16:", i64::from(z)),
        old::Value::I32(z) => integer(to, b"i32:", i64::from(z)),
        old::Value::I64(z) => integer(to, b"i64:", z),
        old::Value::F64 { number: _, bits: b } => real(to, b"f64:", b),
        old::Value::Blob { at, len } => long(to, b"blob:", s, at, len),
        old::Value::Text { at, len } => long(to, b"text:", s, at, len),
    }
}

// A value of the file reading, whose place is within s.
pub fn file_value<W: Write>(to: &mut W, v: file::Value, s: &[u8]) -> io::Result<()> {
    match v {
        file::Value::Null => text(to, b"null"),
        file::Value::Integer(z) => integer(to, b"i:", z),
        file::Value::Real { number: _, bits: b } => real(to, b"r:", b),
        file::Value::Blob { at, len } => long(to, b"b:", s, at, len),
        file::Value::Text { at, len } => long(to, b"t:", s, at, len),
    }
}

fn integer<W: Write>(to: &mut W, kind: &[u8], z: i64) -> io::Result<()> {
    text(to, kind)?;
    signed(to, z)
}

// By its bits, which tell one NaN from another, and -0.0 from 0.
fn real<W: Write>(to: &mut W, kind: &[u8], b: u64) -> io::Result<()> {
    text(to, kind)?;
    bits(to, b)
}

fn long<W: Write>(to: &mut W, kind: &[u8], s: &[u8], at: usize, len: usize) -> io::Result<()> {
    text(to, kind)?;
    hex(to, whole_part(s, at, len))
}
