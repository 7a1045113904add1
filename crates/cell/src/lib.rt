// Cells of the four kinds of b-tree page, in both readings.
//
// A cell reader is handed the part of the page that begins at the cell's pointer and sees no offset. It reads straight
// down: the numbers before the payload, how many bytes the payload has, the record in it, and what stands behind that.
// From the file format, 1.6 "B-tree Pages", and the Rust's `_cell` functions.
#![tactic(auto)]

ghost use Rattle.std.specs.Prelude.{◌≡◌, ◌-◌, length, drop};
ghost use Rattle.kinds.specs.Kind.{has_closing};
ghost use Rattle.cell.specs.Numbers.{number_in, child_at, numbers_of};
ghost use Rattle.cell.specs.Cell.{payload_in, behind, cell_of, answer_of};

use answers::Fault;
use kinds::Kind;
use reading::{Reading, limit_of};
use varint::{Cause, Number};

// What a kind lacks.
const NONE: Number = Number {
    value: 0,
    length: 0,
};

// The numbers before a cell's payload. What its kind lacks is 0, in no bytes.
#[derive(Clone, Copy)]
pub struct Numbers {
    pub child: u32,
    pub size: Number,
    // The row number of a leaf, the key of an interior cell.
    pub key: Number,
    // How many bytes they took.
    pub length: usize,
}

// A cell that is accepted. What its kind lacks is 0, in no bytes.
#[derive(Clone, Copy)]
pub struct Cell {
    pub numbers: Numbers,
    // How many bytes its payload has, which begins behind the numbers.
    pub payload: usize,
    pub header: Number,
    // Where the values begin in the payload.
    pub values: usize,
    pub columns: usize,
    // The row number or key; of an index record in the old reading, the varint behind it.
    pub row: Number,
}

// A varint, where there is one; `other` where there is none.
fn number_in(s: &[u8], has: bool, limit: usize, other: Number) -> Result<Number, Cause>
    ensures { result ≡ number_in has limit other s.now }
{
    if has {
        varint::read(s, limit)
    } else {
        Ok(other)
    }
}

// The child of an interior cell.
fn child_of(s: &[u8], kind: Kind) -> u32
    ensures { result ≡ child_at kind s.now }
{
    if kind.is_interior() {
        fields::be_u32(s)
    } else {
        0
    }
}

// The numbers of the cell that begins `s`.
pub fn numbers_of(s: &[u8], reading: Reading, kind: Kind) -> Result<Numbers, Fault>
    ensures { result ≡ numbers_of reading kind s.now }
{
    let own = kind.child_bytes();
    if s.len() < own {
        return Err(Fault::CellCut);
    }
    let limit = limit_of(reading);
    let Ok(size) = number_in(&s[own..], kind.has_size(), limit, NONE) else {
        return Err(Fault::CellCut);
    };
    let at = own + size.length;
    let Ok(key) = number_in(&s[at..], kind.has_row(), limit, NONE) else {
        return Err(Fault::CellCut);
    };
    Ok(Numbers {
        child: child_of(s, kind),
        size,
        key,
        length: at + key.length,
    })
}

// How many of the bytes behind the numbers are the payload, whose size is given as `p`. The one place that looks for a
// payload's bytes.
pub fn payload_of(s: &[u8], reading: Reading, most: u64, p: u64) -> Result<usize, Fault>
    ensures { result ≡ payload_in reading most p s.now }
{
    match reading {
        Reading::Old => Ok(s.len()),
        Reading::File => {
            if most < p {
                Err(Fault::PayloadSpills)
            } else if (s.len() as u64) < p {
                Err(Fault::CellCut)
            } else {
                Ok(p as usize)
            }
        }
    }
}

// The varint behind a record that leaves `left` bytes of its payload `q`, where the kind has one; else the key.
fn closing_in(
    q: &[u8],
    reading: Reading,
    kind: Kind,
    left: u64,
    key: Number,
) -> Result<Number, Cause>
    ensures { result ≡ number_in (has_closing reading kind) 5 key (drop (length q.now - left) q.now) }
{
    let at = (q.len() as u64).saturating_sub(left) as usize;
    number_in(&q[at..], kind.has_closing(reading), varint::OLD_LIMIT, key)
}

// The cell behind its numbers: payload, record, and what stands behind that.
fn behind_of(
    s: &[u8],
    reading: Reading,
    kind: Kind,
    usable: u32,
    numbers: Numbers,
) -> Result<Cell, Fault>
    ensures { result ≡ answer_of reading (behind reading kind usable numbers s.now) }
{
    let payload = payload_of(s, reading, kind.most_whole(usable), numbers.size.value)?;
    let q = &s[..payload];
    let record = record::record_of(q, reading)?;
    let row = closing_in(q, reading, kind, record.left, numbers.key).or(Err(Fault::ClosingCut))?;
    Ok(Cell {
        numbers,
        payload,
        header: record.header,
        values: record.values,
        columns: record.columns,
        row,
    })
}

// The cell that begins `s`, the part of a page from the cell's pointer to where cells end (old: the page's end; file: U,
// which is `usable`). An interior table cell ends behind its key.
pub fn cell_of(s: &[u8], reading: Reading, kind: Kind, usable: u32) -> Result<Cell, Fault>
    ensures { result ≡ answer_of reading (cell_of reading kind usable s.now) }
{
    let numbers = numbers_of(s, reading, kind)?;
    if kind.has_size() {
        return behind_of(&s[numbers.length..], reading, kind, usable, numbers);
    }
    Ok(Cell {
        numbers,
        payload: 0,
        header: NONE,
        values: 0,
        columns: 0,
        row: numbers.key,
    })
}
