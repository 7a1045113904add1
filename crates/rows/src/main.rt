// The program `rows`: the cells of databases in the three readings, of each file that is named or, where none is, of the one on
// standard input, which `-` names too. All of it is in `lines`.
//
// The gate names a gauge's page on standard input and then, from data/: pages with reserved space, into which one cell is put and one
// runs; the rows that were worked by hand; a page of 65,536 bytes, with a record of 64,000 columns; one byte more than is
// taken; no bytes at all; and a header that the file reading refuses.
#![tactic(auto)]

use std::env::{Env, FillError};
use std::fs::File;
use std::{fmt, io, str};

fn main(rt: HostRuntime) -> io::Result<()> {
    let mut name = [0u8; 4_096];
    match rt.arg(1, &mut name) {
        Err(FillError::NotPresent) => lines::run(&mut rt.stdin(), &mut rt.stdout()),
        _ => files(&rt),
    }
}

// Argument 0 is the program's own name, and no file has a name that is longer than the buffer.
fn files(rt: &HostRuntime) -> io::Result<()> {
    let mut name = [0u8; 4_096];
    let mut unread = true;
    for i in 1..usize::MAX {
        match rt.arg(i, &mut name) {
            Ok(n) => {
                if is_dash(&name[..n]) {
                    input(rt, unread)?;
                    unread = false;
                } else {
                    file(rt, &name[..n])?;
                }
            }
            Err(FillError::TooLong) => file(rt, b"")?,
            Err(FillError::NotPresent) => break,
        }
    }
    Ok(())
}

// Standard input is one database. Named again it has no bytes, also where it is too long to be read to its end.
fn input(rt: &HostRuntime, unread: bool) -> io::Result<()> {
    if unread {
        return lines::run(&mut rt.stdin(), &mut rt.stdout());
    }
    lines::run(&mut io::empty(), &mut rt.stdout())
}

fn file(rt: &HostRuntime, name: &[u8]) -> io::Result<()> {
    match opened(rt, name) {
        Ok(mut from) => lines::run(&mut from, &mut rt.stdout()),
        Err(why) => fail(rt, why),
    }
}

fn opened(rt: &HostRuntime, name: &[u8]) -> io::Result<File> {
    match str::from_utf8(name) {
        Ok(path) => File::open(rt, path),
        Err(_) => Err(io::Error::from(io::ErrorKind::InvalidFilename)),
    }
}

// A line on standard error: why a file is not shown, in the system's words, without its number. The next one is shown.
fn fail(rt: &HostRuntime, why: io::Error) -> io::Result<()> {
    let told = fmt::InlineText::<256>::of(why);
    let words = told.as_str();
    match words.split_once(" (os error ") {
        Some((said, _)) => eprintln!(rt; "rows: {said}"),
        None => eprintln!(rt; "rows: {words}"),
    }
}

fn is_dash(name: &[u8]) -> bool {
    name == b"-".as_slice()
}
