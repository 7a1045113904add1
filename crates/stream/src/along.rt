// The old values of a cell, one after another along its cursor.
use crate::old;
use columns::{Cursor, Step};
use place::Page;
use print::out::text;
use std::io;
use std::io::Write;

// How many bytes wait behind a value, and the cursor behind it.
#[derive(Clone, Copy)]
pub enum Went {
    On { at: usize, next: Cursor },
    Nowhere(usize),
}

// As many values as are counted, and the end of the line. A cell that was counted has a cursor: no numbers are told.
pub fn row<W: Write>(
    to: &mut W,
    db: &[u8],
    out: &mut [u8],
    at: usize,
    asked: Page,
    i: usize,
    count: usize,
) -> io::Result<usize> {
    let opened = row::cursor(db, asked, i);
    match opened {
        Err(_) => text(to, out, at, b" refused\n"),
        Ok(first) => {
            let n = values(to, db, out, at, first, count)?;
            text(to, out, n, b"\n")
        }
    }
}

// Where the cursor has fewer or more, the line says so.
fn values<W: Write>(
    to: &mut W,
    db: &[u8],
    out: &mut [u8],
    at: usize,
    first: Cursor,
    count: usize,
) -> io::Result<usize> {
    let mut n = at;
    let mut here = first;
    let mut left = count;
    while 0 < left {
        let went = old::one(to, db, out, n, here)?;
        let Went::On { at: waiting, next } = went else {
            return text(to, out, n, b" missing");
        };
        n = waiting;
        here = next;
        left -= 1;
    }
    last(to, db, out, n, here)
}

fn last<W: Write>(
    to: &mut W,
    db: &[u8],
    out: &mut [u8],
    at: usize,
    here: Cursor,
) -> io::Result<usize> {
    let reached = here.step(db);
    match reached {
        None => Ok(at),
        Some(
            Step {
                serial: _,
                at: _,
                next: _,
            },
        ) => text(to, out, at, b" more"),
    }
}
