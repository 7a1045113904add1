// The page call on a lent table, as a run: the database on standard input, its first pages in both readings, and what
// three places of the table hold behind each call. Places that a call does not fill keep what stood there, which prints
// as an entry of kind 255.
#![tactic(auto)]

use place::Page;
use print::input::read_full;
use print::{number, signed, text};
use std::io;
use std::io::Write;

fn main(rt: HostRuntime) -> io::Result<()> {
    let mut buffer = [0u8; 65_536];
    let n = read_full(&mut rt.stdin(), &mut buffer)?;
    let db = &buffer[..n];
    let mut to = rt.stdout();
    text(&mut to, b"old page 0\n")?;
    show_page(&mut to, db, place::old(0))?;
    text(&mut to, b"old page 1\n")?;
    show_page(&mut to, db, place::old(1))?;
    text(&mut to, b"file page 0\n")?;
    show_page(&mut to, db, place::file(0))?;
    text(&mut to, b"file page 1\n")?;
    show_page(&mut to, db, place::file(1))
}

// The answer, and the first three places of the table.
fn show_page<W: Write>(to: &mut W, db: &[u8], asked: Page) -> io::Result<()> {
    show_answer(to, db, asked)?;
    show_place(to, db, asked, 0)?;
    show_place(to, db, asked, 1)?;
    show_place(to, db, asked, 2)
}

fn show_answer<W: Write>(to: &mut W, db: &[u8], asked: Page) -> io::Result<()> {
    let probed = probe::probe(db, asked, 0);
    let answer = probed.answer;
    match answer {
        Ok(head) => {
            text(to, b"  shown, kind ")?;
            number(to, head.kind as u64)?;
            text(to, b", cells ")?;
            number(to, head.cells as u64)?;
            text(to, b", content from ")?;
            number(to, head.content_start as u64)?;
            text(to, b"\n")
        }
        Err(refusal) => {
            let numbers = answers::numbers_of(refusal);
            text(to, b"  refused ")?;
            number(to, numbers.number as u64)?;
            text(to, b", page ")?;
            number(to, numbers.page as u64)?;
            text(to, b"\n")
        }
    }
}

// Place `i`: kind, pointer, child, payload size, row number, header size, columns.
fn show_place<W: Write>(to: &mut W, db: &[u8], asked: Page, i: usize) -> io::Result<()> {
    let probed = probe::probe(db, asked, i);
    let entry = probed.entry;
    text(to, b"  ")?;
    number(to, entry.kind as u64)?;
    spaced(to, entry.pointer as u64)?;
    spaced(to, entry.child as u64)?;
    spaced(to, entry.payload_size)?;
    text(to, b" ")?;
    signed(to, entry.row)?;
    spaced(to, entry.header_size)?;
    spaced(to, entry.columns as u64)?;
    text(to, b"\n")
}

fn spaced<W: Write>(to: &mut W, n: u64) -> io::Result<()> {
    text(to, b" ")?;
    number(to, n)
}
