// The values that columns show, as C has them.
ghost use Rattle.std.specs.Prelude.{◌≡◌};
ghost use Rattle.turns.specs.Shown.{empty, integer_of, real_of, long_of, old_value, old_shown, file_value, file_shown};

use crate::refusals::{no_refusal, refused_by};
use crate::types::{Shown, Value};
use answers::Refusal;

// Null, and what stands where no value is shown.
pub fn empty_value() -> Value
    ensures { result ≡ empty }
{
    Value {
        kind: 0,
        width: 0,
        integer: 0,
        bits: 0,
        at: 0,
        len: 0,
    }
}

pub fn integer_of(width: u8, integer: i64) -> Value
    ensures { result ≡ integer_of width integer }
{
    Value {
        kind: 1,
        width,
        integer,
        bits: 0,
        at: 0,
        len: 0,
    }
}

pub fn real_of(bits: u64) -> Value
    ensures { result ≡ real_of bits }
{
    Value {
        kind: 2,
        width: 0,
        integer: 0,
        bits,
        at: 0,
        len: 0,
    }
}

// A text or a blob.
pub fn long_of(kind: u8, at: usize, len: usize) -> Value
    ensures { result ≡ long_of kind at len }
{
    Value {
        kind,
        width: 0,
        integer: 0,
        bits: 0,
        at,
        len,
    }
}

pub fn old_value(value: values::old::Value) -> Value
    ensures { result ≡ old_value value }
{
    match value {
        values::old::Value::Null => empty_value(),
        values::old::Value::I8(z) => integer_of(8, i64::from(z)),
        values::old::Value::I16(z) => integer_of(16, i64::from(z)),
        values::old::Value::I32(z) => integer_of(32, i64::from(z)),
        values::old::Value::I64(z) => integer_of(64, z),
        values::old::Value::F64 { bits, .. } => real_of(bits),
        values::old::Value::Blob { at, len } => long_of(4, at, len),
        values::old::Value::Text { at, len } => long_of(3, at, len),
    }
}

pub fn old_shown(answer: Result<values::old::Value, Refusal>) -> Shown
    ensures { result ≡ old_shown answer }
{
    match answer {
        Err(refusal) => Shown {
            refused: refused_by(refusal),
            value: empty_value(),
        },
        Ok(value) => Shown {
            refused: no_refusal(),
            value: old_value(value),
        },
    }
}

pub fn file_value(value: values::file::Value) -> Value
    ensures { result ≡ file_value value }
{
    match value {
        values::file::Value::Null => empty_value(),
        values::file::Value::Integer(z) => integer_of(0, z),
        values::file::Value::Real { bits, .. } => real_of(bits),
        values::file::Value::Blob { at, len } => long_of(4, at, len),
        values::file::Value::Text { at, len } => long_of(3, at, len),
    }
}

pub fn file_shown(answer: Result<values::file::Value, Refusal>) -> Shown
    ensures { result ≡ file_shown answer }
{
    match answer {
        Err(refusal) => Shown {
            refused: refused_by(refusal),
            value: empty_value(),
        },
        Ok(value) => Shown {
            refused: no_refusal(),
            value: file_value(value),
        },
    }
}
