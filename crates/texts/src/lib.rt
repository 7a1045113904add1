// A row in words, as the file reading shows it: its row number and its values, or the refusal. The guarded reading shows it in
// the same words, and the old one its values. Where a write fails, the buffer holds what was put before it.
#![tactic(auto)]

ghost use Rattle.std.specs.Prelude.{◌≡◌, IfOk, OnErr};
ghost use Rattle.print.specs.Gathered.{HoldsBeginning, gathered, puts};
ghost use Rattle.texts.specs.Row.{value_text, values_text, row_text};

use answers::Refusal;
use columns::Cursor;
use parts::whole_part;
use print::out::{field_i64, integer, long, real, refused, text};
use row::FoundCell;
use std::io;
use std::io::Write;
use values::file::Value;

// The rest of a cell's line: the row number and the values, or the refusal.
pub fn row<W: Write>(
    to: &mut W,
    db: &[u8],
    out: &mut [u8],
    at: usize,
    answer: Result<FoundCell, Refusal>,
) -> io::Result<usize>
    ensures ok { IfOk result (λ n. gathered out.new n ≡ puts (row_text db.now answer) (gathered out.old at)) }
    ensures err { OnErr result (HoldsBeginning (row_text db.now answer) (gathered out.old at) out.new) }
{
    match answer {
        Err(refusal) => refused(to, out, at, answers::numbers_of(refusal)),
        Ok(found) => {
            let n = field_i64(to, out, at, fields::signed_of(found.cell.row.value))?;
            let n = values(to, db, out, n, found.cursor, found.cell.columns)?;
            text(to, out, n, b"\n")
        }
    }
}

// At most as many values as are counted, so that the loop is seen to end.
fn values<W: Write>(
    to: &mut W,
    db: &[u8],
    out: &mut [u8],
    at: usize,
    first: Cursor,
    count: usize,
) -> io::Result<usize>
    ensures ok { IfOk result (λ n. gathered out.new n ≡ puts (values_text count first db.now) (gathered out.old at)) }
    ensures err { OnErr result (HoldsBeginning (values_text count first db.now) (gathered out.old at) out.new) }
{
    let mut n = at;
    let mut here = first;
    let mut left = count;
    while 0 < left {
        let Some(column) = row_values::file::next(db, here) else {
            return Ok(n);
        };
        n = value(to, db, out, n, column.value)?;
        here = column.next;
        left -= 1;
    }
    Ok(n)
}

// One value, behind a space.
pub fn value<W: Write>(
    to: &mut W,
    db: &[u8],
    out: &mut [u8],
    at: usize,
    v: Value,
) -> io::Result<usize>
    ensures ok { IfOk result (λ n. gathered out.new n ≡ puts (value_text db.now v) (gathered out.old at)) }
    ensures err { OnErr result (HoldsBeginning (value_text db.now v) (gathered out.old at) out.new) }
{
    match v {
        Value::Null => text(to, out, at, b" null"),
        Value::Integer(z) => integer(to, out, at, b" i:", z),
        Value::Real { bits, .. } => real(to, out, at, b" r:", bits),
        Value::Blob { at: from, len } => long(to, out, at, b" b:", whole_part(db, from, len)),
        Value::Text { at: from, len } => long(to, out, at, b" t:", whole_part(db, from, len)),
    }
}
