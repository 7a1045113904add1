// What the old reading shows of a cell: its integers have the Rust's widths, which are not printed.
use answers::Refusal;
use columns::Cursor;
use print::out::{field_i64, refused, text};
use row::FoundCell;
use std::io;
use std::io::Write;
use values::file;
use values::old::Value;

// The rest of a cell's line: the row number and the values, or the refusal.
pub fn row<W: Write>(
    to: &mut W,
    db: &[u8],
    out: &mut [u8],
    at: usize,
    answer: Result<FoundCell, Refusal>,
) -> io::Result<usize> {
    match answer {
        Err(refusal) => refused(to, out, at, answers::numbers_of(refusal)),
        Ok(found) => {
            let n = field_i64(to, out, at, fields::signed_of(found.cell.row.value))?;
            let n = values(to, db, out, n, found.cursor, found.cell.columns)?;
            text(to, out, n, b"\n")
        }
    }
}

// At most as many values as are counted, so that the loop is seen to end.
fn values<W: Write>(
    to: &mut W,
    db: &[u8],
    out: &mut [u8],
    at: usize,
    first: Cursor,
    count: usize,
) -> io::Result<usize> {
    let mut n = at;
    let mut here = first;
    let mut left = count;
    while 0 < left {
        let Some(column) = row_values::old::next(db, here) else {
            return Ok(n);
        };
        n = value(to, db, out, n, column.value)?;
        here = column.next;
        left -= 1;
    }
    Ok(n)
}

// A value is written as one of the file reading, whatever width its type has.
fn value<W: Write>(
    to: &mut W,
    db: &[u8],
    out: &mut [u8],
    at: usize,
    v: Value,
) -> io::Result<usize> {
    texts::value(to, db, out, at, widened(v))
}

fn widened(v: Value) -> file::Value {
    match v {
        Value::Null => file::Value::Null,
        Value::I8(z) => file::Value::Integer(i64::from(z)),
        Value::I16(z) => file::Value::Integer(i64::from(z)),
        Value::I32(z) => file::Value::Integer(i64::from(z)),
        Value::I64(z) => file::Value::Integer(z),
        Value::F64 { number, bits } => file::Value::Real { number, bits },
        Value::Blob { at, len } => file::Value::Blob { at, len },
        Value::Text { at, len } => file::Value::Text { at, len },
    }
}
