// What our programs write with: text, numbers and bytes, at once or (`out`) gathered in a buffer. And (`input`) what they read with.
//
// A writer is lent to each function. Where its bytes are known, as those of one over memory are, the contracts say what is
// appended to them, and that it is a beginning of that where a write failed; of a system's file no contract can. Those of `out` promise
// what they gather.
#![tactic(auto)]

mod digits;
pub mod input;
pub mod out;

ghost use Rattle.std.specs.Prelude.{◌≡◌, ◌*◌, ◌<◌, ◌≤◌, OnErr, OnOk, nat_abs, length, take};
ghost use Rattle.std.specs.Io.KnownBytes.{Appends};
ghost use Rattle.print.specs.Begun.{AppendsBeginning};
ghost use Rattle.print.specs.Digits.{hex_digit_ascii};
ghost use Rattle.print.specs.Hex.{hex_of};
ghost use Rattle.print.specs.Text.{bits_of, decimal_of, signed_of};

use digits::{decimal, hexadecimal};
use std::io;
use std::io::Write;

pub fn text<W: Write>(to: &mut W, s: &[u8]) -> io::Result<()>
    ensures written { OnOk result (Appends (W.contents to.old) (W.contents to.new) s.now) }
    ensures begun { OnErr result (AppendsBeginning (W.contents to.old) (W.contents to.new) s.now) }
{
    let mut at: usize = 0;
    while at < s.len() {
        let n = to.write(&s[at..])?;
        if n == 0 {
            return Err(io::Error::from(io::ErrorKind::WriteZero));
        }
        at += n;
    }
    Ok(())
}

// In decimal.
pub fn number<W: Write>(to: &mut W, n: u64) -> io::Result<()>
    ensures written { OnOk result (Appends (W.contents to.old) (W.contents to.new) (decimal_of n)) }
    ensures begun { OnErr result (AppendsBeginning (W.contents to.old) (W.contents to.new) (decimal_of n)) }
{
    let mut digits = [0u8; 20];
    let from = decimal(n, &mut digits);
    text(to, &digits[from..])
}

// In decimal, with a `-` before a number below zero.
pub fn signed<W: Write>(to: &mut W, z: i64) -> io::Result<()>
    ensures written { OnOk result (Appends (W.contents to.old) (W.contents to.new) (signed_of z)) }
    ensures begun { OnErr result (AppendsBeginning (W.contents to.old) (W.contents to.new) (signed_of z)) }
{
    let size = magnitude(z);
    if z < 0 {
        text(to, b"-")?;
        return number(to, size);
    }
    number(to, size)
}

// The number without its sign. The opposite of the least number is no i64, but -1 - z always is.
fn magnitude(z: i64) -> u64
    ensures { result ≡ nat_abs z }
{
    if z < 0 {
        return (-1 - z) as u64 + 1;
    }
    z as u64
}

// All 64 bits, as 16 hexadecimal digits in lower case.
pub fn bits<W: Write>(to: &mut W, n: u64) -> io::Result<()>
    ensures written { OnOk result (Appends (W.contents to.old) (W.contents to.new) (bits_of n)) }
    ensures begun { OnErr result (AppendsBeginning (W.contents to.old) (W.contents to.new) (bits_of n)) }
{
    let mut digits = [0u8; 16];
    hexadecimal(n, &mut digits);
    text(to, &digits)
}

// How many bytes are spelt between two writes, so that a long slice takes few of them.
const CHUNK: usize = 32;

// Every byte as two hexadecimal digits in lower case, with nothing between.
pub fn hex<W: Write>(to: &mut W, s: &[u8]) -> io::Result<()>
    ensures written { OnOk result (Appends (W.contents to.old) (W.contents to.new) (hex_of s.now)) }
    ensures begun { OnErr result (AppendsBeginning (W.contents to.old) (W.contents to.new) (hex_of s.now)) }
{
    let mut at: usize = 0;
    while CHUNK < s.len() - at {
        let end = at + CHUNK;
        chunk(to, &s[at..end])?;
        at = end;
    }
    chunk(to, &s[at..])
}

// One write of `hex`.
fn chunk<W: Write>(to: &mut W, s: &[u8]) -> io::Result<()>
    requires { length s.now ≤ 32 }
    ensures written { OnOk result (Appends (W.contents to.old) (W.contents to.new) (hex_of s.now)) }
    ensures begun { OnErr result (AppendsBeginning (W.contents to.old) (W.contents to.new) (hex_of s.now)) }
{
    let mut out = [0u8; 2 * CHUNK];
    let n = spell(s, &mut out);
    text(to, &out[..n])
}

// Puts the two digits of each byte at the start of out, and answers how many digits there are.
fn spell(s: &[u8], out: &mut [u8]) -> usize
    requires { 2 * length s.now ≤ length out.old }
    ensures in_bounds { result ≤ length out.new }
    ensures out_after { take result out.new ≡ hex_of s.now }
{
    let mut i: usize = 0;
    while i < s.len() {
        out[2 * i] = digit(s[i] / 16);
        out[2 * i + 1] = digit(s[i] % 16);
        i += 1;
    }
    2 * i
}

fn digit(d: u8) -> u8
    requires { d < 16 }
    ensures { result ≡ hex_digit_ascii d }
{
    if d < 10 { b'0' + d } else { b'a' + (d - 10) }
}
