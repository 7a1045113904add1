// What the old reading shows of a database, in the form that the oracle prints: oracle/README.md. Each function is lent
// the buffer, told how many bytes wait in it, and answers how many wait then.
use crate::alone;
use crate::along::{Went, row};
use crate::pages::pages;
use crate::telling::{Telling, header_refused, refused};
use answers::Refusal;
use columns::Cursor;
use header::Header;
use page::Open;
use parts::whole_part;
use place::Page;
use print::out::{field, field_i64, field_u8, field_u32, integer, long, real, text};
use reading::Reading;
use row_values::old::Column;
use std::io;
use std::io::Write;
use table::{Entry, Head};
use values::old::Value;

// More cells than any page has: no table is lent here, and none is too short.
const ROOM: usize = 65_536;

pub fn database<W: Write>(
    to: &mut W,
    db: &[u8],
    out: &mut [u8],
    at: usize,
    telling: Telling,
) -> io::Result<usize> {
    let answer = header::header_of(db, Reading::Old);
    match answer {
        Err(flaw) => {
            let numbers = answers::numbers_of(Refusal::OfDatabase(flaw));
            header_refused(to, out, at, telling, numbers.number)
        }
        Ok(header) => {
            let n = versions(to, out, at, header)?;
            let n = sizes(to, out, n, header)?;
            let n = settings(to, out, n, header)?;
            pages(to, db, out, n, Reading::Old, telling, 0, last_page(db))
        }
    }
}

// The fields of a header, in three parts.
fn versions<W: Write>(to: &mut W, out: &mut [u8], at: usize, header: Header) -> io::Result<usize> {
    let n = text(to, out, at, b"header")?;
    let n = field_u32(to, out, n, header.page_size)?;
    let n = field_u32(to, out, n, header.write_version)?;
    let n = field_u32(to, out, n, header.read_version)?;
    let n = field_u32(to, out, n, header.max_payload_fraction)?;
    let n = field_u32(to, out, n, header.min_payload_fraction)?;
    field_u32(to, out, n, header.leaf_payload_fraction)
}

fn sizes<W: Write>(to: &mut W, out: &mut [u8], at: usize, header: Header) -> io::Result<usize> {
    let n = field_u32(to, out, at, header.file_change_counter)?;
    let n = field_u32(to, out, n, header.db_size)?;
    let n = field_u32(to, out, n, header.first_freelist_page_no)?;
    let n = field_u32(to, out, n, header.total_freelist_pages)?;
    let n = field_u32(to, out, n, header.schema_cookie)?;
    let n = field_u32(to, out, n, header.schema_format_no)?;
    field_u32(to, out, n, header.default_page_cache_size)
}

fn settings<W: Write>(to: &mut W, out: &mut [u8], at: usize, header: Header) -> io::Result<usize> {
    let n = field_u32(to, out, at, header.no_largest_root_b_tree)?;
    let n = field_u32(to, out, n, header.db_text_encoding)?;
    let n = field_u32(to, out, n, header.user_version)?;
    let n = field_u32(to, out, n, header.incremental_vacuum_mode)?;
    let n = field_u32(to, out, n, header.application_id)?;
    let n = field_u32(to, out, n, header.version_valid_for_no)?;
    let n = field_u32(to, out, n, header.sqlite_version_number)?;
    text(to, out, n, b"\n")
}

// The page behind the last one, which is asked for too. Pages of no bytes have no last one: 0 and 1 stand for all.
fn last_page(db: &[u8]) -> usize {
    let shaped = shape::shape_of(db, Reading::Old);
    match shaped {
        Err(_) => 0,
        Ok(shape) => {
            if shape.page_size == 0 {
                return 1;
            }
            shape.pages
        }
    }
}

pub fn page<W: Write>(
    to: &mut W,
    db: &[u8],
    out: &mut [u8],
    at: usize,
    telling: Telling,
    number: u32,
) -> io::Result<usize> {
    let asked = place::old(number);
    let n = text(to, out, at, b"page")?;
    let n = field_u32(to, out, n, number)?;
    let opening = page::open_page(db, asked);
    let answer = table::check_by(db, opening, ROOM);
    match answer {
        Err(refusal) => {
            let n = refused(to, out, n, telling, answers::numbers_of(refusal))?;
            alone::cells(to, db, out, n, telling, number)
        }
        Ok(head) => {
            let n = shown(to, out, n, head)?;
            cells(to, db, out, n, asked, opening, head.cells)
        }
    }
}

fn shown<W: Write>(to: &mut W, out: &mut [u8], at: usize, head: Head) -> io::Result<usize> {
    let n = field_u8(to, out, at, head.kind)?;
    let n = field_u32(to, out, n, head.first_freeblock)?;
    let n = field(to, out, n, head.cells as u64)?;
    let n = field_u32(to, out, n, head.content_start)?;
    let n = field_u32(to, out, n, head.fragmented)?;
    let n = field_u32(to, out, n, head.rightmost)?;
    text(to, out, n, b"\n")
}

fn cells<W: Write>(
    to: &mut W,
    db: &[u8],
    out: &mut [u8],
    at: usize,
    asked: Page,
    opening: Result<Open, Refusal>,
    count: usize,
) -> io::Result<usize> {
    let mut n = at;
    for i in 0..count {
        n = cell(to, db, out, n, asked, opening, i)?;
    }
    Ok(n)
}

fn cell<W: Write>(
    to: &mut W,
    db: &[u8],
    out: &mut [u8],
    at: usize,
    asked: Page,
    opening: Result<Open, Refusal>,
    i: usize,
) -> io::Result<usize> {
    let entry = table::entry_by(db, opening, i);
    let n = text(to, out, at, b"cell")?;
    let n = field(to, out, n, i as u64)?;
    let n = place(to, out, n, entry)?;
    let n = record(to, out, n, entry)?;
    row(to, db, out, n, asked, i, entry.columns)
}

fn place<W: Write>(to: &mut W, out: &mut [u8], at: usize, entry: Entry) -> io::Result<usize> {
    let n = field_u8(to, out, at, entry.kind)?;
    let n = field_u32(to, out, n, entry.pointer)?;
    field_u32(to, out, n, entry.child)
}

fn record<W: Write>(to: &mut W, out: &mut [u8], at: usize, entry: Entry) -> io::Result<usize> {
    let n = field(to, out, at, entry.payload_size)?;
    let n = field_i64(to, out, n, entry.row)?;
    let n = field(to, out, n, entry.header_size)?;
    field(to, out, n, entry.columns as u64)
}

// The value at a cursor, if there is one.
pub fn one<W: Write>(
    to: &mut W,
    db: &[u8],
    out: &mut [u8],
    at: usize,
    here: Cursor,
) -> io::Result<Went> {
    let reached = row_values::old::next(db, here);
    match reached {
        None => Ok(Went::Nowhere(at)),
        Some(Column { value: v, next }) => {
            let n = value(to, db, out, at, v)?;
            Ok(Went::On { at: n, next })
        }
    }
}

pub fn value<W: Write>(
    to: &mut W,
    db: &[u8],
    out: &mut [u8],
    at: usize,
    v: Value,
) -> io::Result<usize> {
    match v {
        Value::Null => text(to, out, at, b" null"),
        Value::I8(z) => integer(to, out, at, b" i8:", i64::from(z)),
        Value::I16(z) => integer(to, out, at, b" i16:", i64::from(z)),
        Value::I32(z) => integer(to, out, at, b" i32:", i64::from(z)),
        Value::I64(z) => integer(to, out, at, b" i64:", z),
        Value::F64 { number: _, bits } => real(to, out, at, b" f64:", bits),
        Value::Blob { at: from, len } => long(to, out, at, b" blob:", whole_part(db, from, len)),
        Value::Text { at: from, len } => long(to, out, at, b" text:", whole_part(db, from, len)),
    }
}
