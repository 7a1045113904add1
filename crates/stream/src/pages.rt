// The pages of a database, from a first to a last one, in a reading.
use crate::telling::Telling;
use crate::{file, old};
use reading::Reading;
use std::io;
use std::io::Write;

pub fn pages<W: Write>(
    to: &mut W,
    db: &[u8],
    out: &mut [u8],
    at: usize,
    reading: Reading,
    telling: Telling,
    first: u32,
    last: usize,
) -> io::Result<usize> {
    let mut n = at;
    let mut number = first;
    while number < u32::MAX && number as usize <= last {
        n = page(to, db, out, n, reading, telling, number)?;
        number += 1;
    }
    Ok(n)
}

fn page<W: Write>(
    to: &mut W,
    db: &[u8],
    out: &mut [u8],
    at: usize,
    reading: Reading,
    telling: Telling,
    number: u32,
) -> io::Result<usize> {
    match reading {
        Reading::Old => old::page(to, db, out, at, telling, number),
        Reading::File => file::page(to, db, out, at, number),
    }
}
