// The lines of the program `rows`: every cell of every table leaf page of a database, in the three readings.
//
// A heading, then for each cell three lines: page (from 1), cell, reading, row number and values, or `refused` and the
// five numbers of the answer. It streams: nothing is kept of a line but a buffer of output, and a row's values are come
// by along its cursor. docs/READINGS.md says how values are written.
//
// `run` is lent a reader and a writer, and promises nothing of what is read or written: it is proved safe and ending, and tells a
// read or a write that fails. What is printed is made by the functions of the readers, of `print` and of `texts`, whose promises say
// all of it.
#![tactic(auto)]

mod old;

use answers::{Flaw, Refusal};
use kinds::Kind;
use print::input::read_full;
use print::out::{field, field_u8, flush, number_u32, text};
use reading::Reading;
use std::io;
use std::io::{Read, Write};

// Reads a database of at most 65,536 bytes, and writes its lines.
pub fn run<R: Read, W: Write>(from: &mut R, to: &mut W) -> io::Result<()> {
    let mut buffer = [0u8; 65_536];
    let mut out = [0u8; 65_536];
    let n = read_full(from, &mut buffer)?;
    let at = text(to, &mut out, 0, b"page cell reading rowid values\n")?;
    let at = answer(from, to, &buffer, &mut out, at, n)?;
    flush(to, &out, at)
}

// A byte more than the buffer takes is over the limit, whatever the bytes are.
fn answer<R: Read, W: Write>(
    from: &mut R,
    to: &mut W,
    buffer: &[u8],
    out: &mut [u8],
    at: usize,
    n: usize,
) -> io::Result<usize> {
    let mut more = [0u8; 1];
    let got = read_full(from, &mut more)?;
    if 0 < got {
        return refused(to, out, at, Flaw::OverLimit);
    }
    if buffer.len() < n {
        return Ok(at);
    }
    database(to, &buffer[0..n], out, at)
}

fn refused<W: Write>(to: &mut W, out: &mut [u8], at: usize, flaw: Flaw) -> io::Result<usize> {
    let numbers = answers::numbers_of(Refusal::OfDatabase(flaw));
    let n = text(to, out, at, b"refused")?;
    let n = field_u8(to, out, n, numbers.number)?;
    text(to, out, n, b"\n")
}

fn database<W: Write>(to: &mut W, db: &[u8], out: &mut [u8], at: usize) -> io::Result<usize> {
    let shaped = shape::shape_of(db, Reading::File);
    match shaped {
        Err(flaw) => refused(to, out, at, flaw),
        Ok(shape) => pages(to, db, out, at, shape.present),
    }
}

fn pages<W: Write>(
    to: &mut W,
    db: &[u8],
    out: &mut [u8],
    at: usize,
    last: usize,
) -> io::Result<usize> {
    let mut n = at;
    let mut number: u32 = 1;
    while number < u32::MAX && number as usize <= last {
        n = leaf(to, db, out, n, number)?;
        number += 1;
    }
    Ok(n)
}

// Pages of another kind are passed by, and those whose pointers do not end in time.
fn leaf<W: Write>(
    to: &mut W,
    db: &[u8],
    out: &mut [u8],
    at: usize,
    number: u32,
) -> io::Result<usize> {
    let opened = page::open_page(db, place::file(number));
    match opened {
        Err(_) => Ok(at),
        Ok(page) => {
            let kind = page.kind;
            match kind {
                Kind::LeafTable => cells(to, db, out, at, number, page.cells),
                Kind::LeafIndex => Ok(at),
                Kind::InteriorTable => Ok(at),
                Kind::InteriorIndex => Ok(at),
            }
        }
    }
}

fn cells<W: Write>(
    to: &mut W,
    db: &[u8],
    out: &mut [u8],
    at: usize,
    number: u32,
    count: usize,
) -> io::Result<usize> {
    let mut n = at;
    for i in 0..count {
        n = old_line(to, db, out, n, number, i)?;
        n = file_line(to, db, out, n, number, i)?;
        n = guarded_line(to, db, out, n, number, i)?;
    }
    Ok(n)
}

// The old reading counts pages from 0.
fn old_line<W: Write>(
    to: &mut W,
    db: &[u8],
    out: &mut [u8],
    at: usize,
    number: u32,
    i: usize,
) -> io::Result<usize> {
    let n = start(to, out, at, number, i, b" old")?;
    old::row(
        to,
        db,
        out,
        n,
        row::found(db, place::old(before(number)), i),
    )
}

fn file_line<W: Write>(
    to: &mut W,
    db: &[u8],
    out: &mut [u8],
    at: usize,
    number: u32,
    i: usize,
) -> io::Result<usize> {
    let n = start(to, out, at, number, i, b" file")?;
    texts::row(to, db, out, n, row::found(db, place::file(number), i))
}

fn guarded_line<W: Write>(
    to: &mut W,
    db: &[u8],
    out: &mut [u8],
    at: usize,
    number: u32,
    i: usize,
) -> io::Result<usize> {
    let n = start(to, out, at, number, i, b" guarded")?;
    texts::row(to, db, out, n, guarded::found(db, number, i))
}

fn before(number: u32) -> u32 {
    if number == 0 { 0 } else { number - 1 }
}

// Page, cell and reading.
fn start<W: Write>(
    to: &mut W,
    out: &mut [u8],
    at: usize,
    number: u32,
    i: usize,
    reading: &[u8],
) -> io::Result<usize> {
    let n = number_u32(to, out, at, number)?;
    let n = field(to, out, n, i as u64)?;
    text(to, out, n, reading)
}
