// Long notes, as a run: the database on standard input, and the note of each of three rows with a gather buffer lent, in the
// file and the guarded reading. A short one lies on its page, a long one spills, and of the last one the chain is damaged.
#![tactic(auto)]

use answers::Refusal;
use print::input::read_full;
use print::{number, text};
use spilled::ValueIn;
use spills::Source;
use std::io;
use std::io::Write;
use values::file::Value;

fn main(rt: HostRuntime) -> io::Result<()> {
    let mut buffer = [0u8; 65_536];
    let n = read_full(&mut rt.stdin(), &mut buffer)?;
    let db = &buffer[..n];
    let mut to = rt.stdout();
    text(&mut to, b"a note on its page\n")?;
    show(&mut to, db, 0)?;
    text(&mut to, b"a note that spills\n")?;
    show(&mut to, db, 1)?;
    text(&mut to, b"a note whose chain is damaged\n")?;
    show(&mut to, db, 2)
}

// The note of row `i` of the table, which is its third column.
fn show<W: Write>(to: &mut W, db: &[u8], i: usize) -> io::Result<()> {
    let mut gather = [0u8; 65_536];
    let answer = spilled::value(db, 2, i, 2, &mut gather);
    text(to, b"  file ")?;
    shown(to, db, &gather, answer)?;
    let answer = marked::value(db, 2, i, 2, &mut gather);
    text(to, b"  guarded ")?;
    shown(to, db, &gather, answer)
}

fn shown<'a, W: Write>(
    to: &mut W,
    db: &'a [u8],
    gather: &'a [u8],
    answer: Result<ValueIn, Refusal>,
) -> io::Result<()> {
    match answer {
        Err(refusal) => refused(to, refusal),
        Ok(ValueIn { value, source }) => {
            if let Value::Text { at, len } = value {
                from(to, source)?;
                text(to, spills::bytes_of(db, gather, source, at, len))?;
                text(to, b"\n")
            } else {
                text(to, b"no text\n")
            }
        }
    }
}

fn from<W: Write>(to: &mut W, source: Source) -> io::Result<()> {
    match source {
        Source::Database => text(to, b"in the database: "),
        Source::Buffer => text(to, b"in the buffer: "),
    }
}

fn refused<W: Write>(to: &mut W, refusal: Refusal) -> io::Result<()> {
    let numbers = answers::numbers_of(refusal);
    text(to, b"refused ")?;
    number(to, numbers.number as u64)?;
    text(to, b", page ")?;
    number(to, numbers.page as u64)?;
    text(to, b", mark ")?;
    number(to, numbers.mark as u64)?;
    text(to, b"\n")
}
