// What the file reading shows of the rows of a database: a line for each cell of each table leaf page, which has page,
// cell, row number and values, or `refused` and the five numbers.
use crate::pages::pages;
use crate::telling::Telling;
use answers::Refusal;
use kinds::Kind;
use print::out::{field, field_u32, refused, text};
use reading::Reading;
use site::Site;
use std::io;
use std::io::Write;

pub fn database<W: Write>(to: &mut W, db: &[u8], out: &mut [u8], at: usize) -> io::Result<usize> {
    let answer = shape::shape_of(db, Reading::File);
    match answer {
        Err(flaw) => {
            let numbers = answers::numbers_of(Refusal::OfDatabase(flaw));
            let n = text(to, out, at, b"header")?;
            refused(to, out, n, numbers)
        }
        Ok(shape) => {
            pages(
                to,
                db,
                out,
                at,
                Reading::File,
                Telling::Numbers,
                1,
                shape.present,
            )
        }
    }
}

// Other pages than table leaves are passed by.
pub fn page<W: Write>(
    to: &mut W,
    db: &[u8],
    out: &mut [u8],
    at: usize,
    number: u32,
) -> io::Result<usize> {
    let found = site::site_of(db, place::file(number));
    match found {
        Err(_) => Ok(at),
        Ok(site) => {
            let kind = site.kind;
            match kind {
                Kind::LeafTable => leaf(to, db, out, at, number, site),
                Kind::LeafIndex => Ok(at),
                Kind::InteriorTable => Ok(at),
                Kind::InteriorIndex => Ok(at),
            }
        }
    }
}

fn leaf<W: Write>(
    to: &mut W,
    db: &[u8],
    out: &mut [u8],
    at: usize,
    number: u32,
    site: Site,
) -> io::Result<usize> {
    let answer = page::open_site(db, site);
    match answer {
        Err(refusal) => {
            let n = text(to, out, at, b"page")?;
            let n = field_u32(to, out, n, number)?;
            refused(to, out, n, answers::numbers_of(refusal))
        }
        Ok(opened) => cells(to, db, out, at, number, opened.cells),
    }
}

fn cells<W: Write>(
    to: &mut W,
    db: &[u8],
    out: &mut [u8],
    at: usize,
    number: u32,
    count: usize,
) -> io::Result<usize> {
    let mut n = at;
    for i in 0..count {
        n = cell(to, db, out, n, number, i)?;
    }
    Ok(n)
}

fn cell<W: Write>(
    to: &mut W,
    db: &[u8],
    out: &mut [u8],
    at: usize,
    number: u32,
    i: usize,
) -> io::Result<usize> {
    let n = text(to, out, at, b"row")?;
    let n = field_u32(to, out, n, number)?;
    let n = field(to, out, n, i as u64)?;
    texts::row(to, db, out, n, row::found(db, place::file(number), i))
}
