// The cells of a page that the old reading refuses as a whole, each by itself: what the calls on one cell answer there.
//
// The oracle shows such a cell by a copy of the page that has no other. A cell that begins before the end of the
// pointers is left out: the copy has other bytes there.
use crate::telling::{Telling, refused};
use crate::{along, old};
use page::Open;
use parts::behind;
use print::out::{field, field_i64, field_u32, text};
use row_head::{ColumnCount, RowNumber};
use std::io;
use std::io::Write;

// How many cells of a page are asked for, the first ones.
const MOST: usize = 64;

// How many columns are asked for one by one.
const FEW: usize = 32;

pub fn cells<W: Write>(
    to: &mut W,
    db: &[u8],
    out: &mut [u8],
    at: usize,
    telling: Telling,
    number: u32,
) -> io::Result<usize> {
    let answer = page::open_page(db, place::old(number));
    match answer {
        Err(_) => Ok(at),
        Ok(opened) => each(to, db, out, at, telling, number, opened),
    }
}

fn each<W: Write>(
    to: &mut W,
    db: &[u8],
    out: &mut [u8],
    at: usize,
    telling: Telling,
    number: u32,
    opened: Open,
) -> io::Result<usize> {
    let mut n = at;
    for i in 0..MOST {
        n = one(to, db, out, n, telling, number, opened, i)?;
    }
    Ok(n)
}

fn one<W: Write>(
    to: &mut W,
    db: &[u8],
    out: &mut [u8],
    at: usize,
    telling: Telling,
    number: u32,
    opened: Open,
    i: usize,
) -> io::Result<usize> {
    if opened.cells <= i {
        return Ok(at);
    }
    if pointer(db, opened, i) < pointers_end(opened.from, head_of(opened), opened.cells) {
        return Ok(at);
    }
    cell(to, db, out, at, telling, number, i)
}

// How many bytes the head has before its pointers.
fn head_of(opened: Open) -> usize {
    let kind = opened.kind;
    page::head_size(kind)
}

// Where the pointers end in the page. They lie in it, and the tests let the sum be seen to fit.
fn pointers_end(from: usize, head: usize, cells: usize) -> usize {
    if 65_536 < from {
        return usize::MAX;
    }
    if 65_536 < head {
        return usize::MAX;
    }
    if 65_536 < cells {
        return usize::MAX;
    }
    from + head + 2 * cells
}

fn pointer(db: &[u8], opened: Open, i: usize) -> usize {
    let page = place::bytes_of(db, opened.at, opened.size);
    let pointers = behind(behind(page, opened.from), head_of(opened));
    let rest = behind(behind(pointers, i), i);
    fields::be_u16(rest) as usize
}

fn cell<W: Write>(
    to: &mut W,
    db: &[u8],
    out: &mut [u8],
    at: usize,
    telling: Telling,
    number: u32,
    i: usize,
) -> io::Result<usize> {
    let n = text(to, out, at, b"alone")?;
    let n = field_u32(to, out, n, number)?;
    let n = field(to, out, n, i as u64)?;
    row(to, db, out, n, telling, number, i)
}

// Row number, column count and values, each by its own call.
fn row<W: Write>(
    to: &mut W,
    db: &[u8],
    out: &mut [u8],
    at: usize,
    telling: Telling,
    number: u32,
    i: usize,
) -> io::Result<usize> {
    let answer = row_head::row_number(db, place::old(number), i);
    match answer {
        Err(refusal) => refused(to, out, at, telling, answers::numbers_of(refusal)),
        Ok(
            RowNumber {
                number: z,
                shortest: _,
            },
        ) => {
            let n = field_i64(to, out, at, z)?;
            counted(to, db, out, n, number, i)
        }
    }
}

// A cell that has a row number is counted: no numbers are told.
fn counted<W: Write>(
    to: &mut W,
    db: &[u8],
    out: &mut [u8],
    at: usize,
    number: u32,
    i: usize,
) -> io::Result<usize> {
    let answer = row_head::count(db, place::old(number), i);
    match answer {
        Err(_) => text(to, out, at, b" refused\n"),
        Ok(
            ColumnCount {
                columns: count,
                shortest: _,
            },
        ) => {
            let n = field(to, out, at, count as u64)?;
            columns(to, db, out, n, number, i, count)
        }
    }
}

// A value call passes all columns before its own, so those of many go along a cursor.
fn columns<W: Write>(
    to: &mut W,
    db: &[u8],
    out: &mut [u8],
    at: usize,
    number: u32,
    i: usize,
    count: usize,
) -> io::Result<usize> {
    if FEW < count {
        return along::row(to, db, out, at, place::old(number), i, count);
    }
    let n = values(to, db, out, at, number, i, count)?;
    let n = behind_last(to, db, out, n, number, i, count)?;
    text(to, out, n, b"\n")
}

fn values<W: Write>(
    to: &mut W,
    db: &[u8],
    out: &mut [u8],
    at: usize,
    number: u32,
    i: usize,
    count: usize,
) -> io::Result<usize> {
    let mut n = at;
    for k in 0..count {
        n = value(to, db, out, n, number, i, k)?;
    }
    Ok(n)
}

fn value<W: Write>(
    to: &mut W,
    db: &[u8],
    out: &mut [u8],
    at: usize,
    number: u32,
    i: usize,
    k: usize,
) -> io::Result<usize> {
    let answer = row_values::old::value(db, number, i, k);
    match answer {
        Err(_) => text(to, out, at, b" missing"),
        Ok(v) => old::value(to, db, out, at, v),
    }
}

// There is no column behind the last: where one is shown, the line says so.
fn behind_last<W: Write>(
    to: &mut W,
    db: &[u8],
    out: &mut [u8],
    at: usize,
    number: u32,
    i: usize,
    k: usize,
) -> io::Result<usize> {
    let answer = row_values::old::value(db, number, i, k);
    match answer {
        Err(_) => Ok(at),
        Ok(_) => text(to, out, at, b" more"),
    }
}
