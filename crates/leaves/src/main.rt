// How the leaves read: varints and values checked by hand, both readings side by side, a line for each row.
//
// `old` is the Rust's reading and `file` the format's. A varint is shown with the number of bytes that it took, or as
// `none`; a value by its kind, and then a decimal number, a real's 64 bits, or the bytes of a text or a blob, both in
// hexadecimal. The kinds are `null`, `i:`, `r:`, `t:` and `b:` in the file reading, and the Rust's own in the old one,
// whose widths they tell. A row without bytes has `-` in their place.
#![tactic(auto)]

mod shown;

use print::{hex, number, text};
use shown::{file_value, found, old_value};
use std::io;
use std::io::Write;
use varint::{FILE_LIMIT, OLD_LIMIT};

fn main(rt: HostRuntime) -> io::Result<()> {
    let mut to = rt.stdout();
    varints(&mut to)?;
    integers(&mut to)?;
    reals(&mut to)?;
    without_bytes(&mut to)?;
    long(&mut to)
}

// The second is the largest number of five bytes, the third the least that needs six, the fourth the largest of all. 7f
// is the largest of one byte, 80 00 a zero longer than it need be, and the last two are cut short.
fn varints<W: Write>(to: &mut W) -> io::Result<()> {
    varint_row(to, b"\x81\x00")?;
    varint_row(to, b"\xff\xff\xff\xff\x7f")?;
    varint_row(to, b"\x81\x80\x80\x80\x80\x00")?;
    varint_row(to, b"\xff\xff\xff\xff\xff\xff\xff\xff\xff")?;
    varint_row(to, b"\x7f")?;
    varint_row(to, b"\x80\x00")?;
    varint_row(to, b"\x81")?;
    varint_row(to, b"")
}

// Null, and integers whose sign or width would be lost first.
fn integers<W: Write>(to: &mut W) -> io::Result<()> {
    value_row(to, 0, b"")?;
    value_row(to, 1, b"\x80")?;
    value_row(to, 2, b"\x80\x00")?;
    value_row(to, 3, b"\x80\x00\x00")?;
    value_row(to, 3, b"\x7f\xff\xff")?;
    value_row(to, 4, b"\x01\x00\x00\x00")?;
    value_row(to, 5, b"\xff\xff\xff\xff\xff\xfe")?;
    value_row(to, 6, b"\x80\x00\x00\x00\x00\x00\x00\x00")
}

// 1.5, a NaN that is not the usual one, and -0.0: a real keeps all its bits.
fn reals<W: Write>(to: &mut W) -> io::Result<()> {
    value_row(to, 7, b"\x3f\xf8\x00\x00\x00\x00\x00\x00")?;
    value_row(to, 7, b"\x7f\xf8\x00\x00\x00\x00\x00\x01")?;
    value_row(to, 7, b"\x80\x00\x00\x00\x00\x00\x00\x00")
}

// The types that say all: 0 and 1, an empty blob and an empty text. The readings part at all but the first.
fn without_bytes<W: Write>(to: &mut W) -> io::Result<()> {
    value_row(to, 8, b"")?;
    value_row(to, 9, b"")?;
    value_row(to, 12, b"")?;
    value_row(to, 13, b"")
}

// A blob and a text.
fn long<W: Write>(to: &mut W) -> io::Result<()> {
    value_row(to, 16, b"\xca\xfe")?;
    value_row(to, 19, b"ok!")
}

fn varint_row<W: Write>(to: &mut W, s: &[u8]) -> io::Result<()> {
    text(to, b"varint ")?;
    bytes(to, s)?;
    text(to, b" old ")?;
    found(to, varint::read(s, OLD_LIMIT))?;
    text(to, b" file ")?;
    found(to, varint::read(s, FILE_LIMIT))?;
    text(to, b"\n")
}

fn value_row<W: Write>(to: &mut W, kind: u64, s: &[u8]) -> io::Result<()> {
    text(to, b"type ")?;
    number(to, kind)?;
    text(to, b" ")?;
    bytes(to, s)?;
    text(to, b" old ")?;
    old_value(to, values::old::value_of(kind, s, 0), s)?;
    text(to, b" file ")?;
    file_value(to, values::file::value_of(kind, s, 0), s)?;
    text(to, b"\n")
}

// The bytes of a row.
fn bytes<W: Write>(to: &mut W, s: &[u8]) -> io::Result<()> {
    if s.len() == 0 {
        return text(to, b"-");
    }
    hex(to, s)
}
