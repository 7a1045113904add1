// Databases from a stream, shown line by line: what the programs `dump`, `dump_file` and `replay` share.
//
// `input` takes one database after another from the stream, `old` and `file` say what
// is shown of a database in their reading, going through its pages by `pages` and through a cell's values by `along`;
// `telling` says how a refusal is told. A database of more than 1 MiB is skipped, and the line `skipped` says so.
//
// The functions here are lent a reader and a writer, and promise nothing of what is read or written: each is proved safe and
// ending, and tells a read or a write that fails. What is printed is made by the functions of the reader, whose promises say all
// of it.
#![tactic(auto)]

mod alone;
mod along;
mod file;
mod input;
mod old;
mod pages;
mod telling;

use input::Next;
use print::out::{field, field_u32, flush, text};
use reading::Reading;
use std::io;
use std::io::{Read, Write};
use telling::Telling;

// How many bytes wait in the buffer, and whether the stream goes on.
#[derive(Clone, Copy)]
struct Turn {
    at: usize,
    more: bool,
}

// Shows each database of the stream in a reading.
pub fn run<R: Read, W: Write>(from: &mut R, to: &mut W, reading: Reading) -> io::Result<()> {
    all(from, to, [0; 1_048_576], reading, Telling::Numbers)
}

// The same for the old reading, with no numbers of refusals, as in the oracle's answers.
pub fn replay<R: Read, W: Write>(from: &mut R, to: &mut W) -> io::Result<()> {
    all(from, to, [0; 1_048_576], Reading::Old, Telling::Word)
}

// The array is a parameter, whose length the logic knows without counting its elements.
fn all<R: Read, W: Write>(
    from: &mut R,
    to: &mut W,
    mut db: [u8; 1_048_576],
    reading: Reading,
    telling: Telling,
) -> io::Result<()> {
    let mut out = [0u8; 65_536];
    let at = databases(from, to, &mut db, &mut out, reading, telling)?;
    flush(to, &out, at)
}

// A proved loop has to end, and nothing says that a stream does, so the databases are counted.
fn databases<R: Read, W: Write>(
    from: &mut R,
    to: &mut W,
    db: &mut [u8],
    out: &mut [u8],
    reading: Reading,
    telling: Telling,
) -> io::Result<usize> {
    let mut at: usize = 0;
    let mut index: u64 = 0;
    while index < u64::MAX {
        let turn = database(from, to, db, out, at, index, reading, telling)?;
        at = turn.at;
        if !turn.more {
            return Ok(at);
        }
        index += 1;
    }
    Ok(at)
}

// One database of the stream.
fn database<R: Read, W: Write>(
    from: &mut R,
    to: &mut W,
    db: &mut [u8],
    out: &mut [u8],
    at: usize,
    index: u64,
    reading: Reading,
    telling: Telling,
) -> io::Result<Turn> {
    let next = input::fetch(from, db)?;
    match next {
        Next::End => Ok(Turn { at, more: false }),
        Next::Cut => {
            let n = text(to, out, at, b"the stream is cut short\n")?;
            Ok(Turn { at: n, more: false })
        }
        Next::Bytes(length) => {
            let n = start(to, out, at, index, length)?;
            let n = answer(to, db, out, n, length as usize, reading, telling)?;
            Ok(Turn { at: n, more: true })
        }
    }
}

fn start<W: Write>(
    to: &mut W,
    out: &mut [u8],
    at: usize,
    index: u64,
    length: u32,
) -> io::Result<usize> {
    let n = text(to, out, at, b"db")?;
    let n = field(to, out, n, index)?;
    let n = field_u32(to, out, n, length)?;
    text(to, out, n, b"\n")
}

// What is shown of a database of n bytes.
fn answer<W: Write>(
    to: &mut W,
    db: &[u8],
    out: &mut [u8],
    at: usize,
    n: usize,
    reading: Reading,
    telling: Telling,
) -> io::Result<usize> {
    if db.len() < n {
        return text(to, out, at, b"skipped\n");
    }
    match reading {
        Reading::Old => old::database(to, &db[0..n], out, at, telling),
        Reading::File => file::database(to, &db[0..n], out, at),
    }
}
