// Output that is gathered in a lent buffer: a write for each number would take most of the time.
//
// Each function is lent the writer, told how many bytes wait at the start of the buffer, and answers how many wait then. What it puts
// there is in its contract; that a full buffer is written before it is used again is not. Where a write fails, the buffer holds what was
// put before it.
ghost use Rattle.std.specs.Prelude.{◌≡◌, [], ◌∷◌, ◌++◌, IfOk, OnOk, OnErr, take};
ghost use Rattle.std.specs.Io.KnownBytes.{Appends};
ghost use Rattle.print.specs.Begun.{AppendsBeginning};
ghost use Rattle.print.specs.Hex.{hex_of};
ghost use Rattle.print.specs.Gathered.{HoldsBeginning, gathered, puts};
ghost use Rattle.print.specs.Text.{bits_of, decimal_of, field_of, refused_of, signed_of};

use answers::Numbers;
use std::io;
use std::io::Write;

// Writes what waits.
pub fn flush<W: Write>(to: &mut W, out: &[u8], at: usize) -> io::Result<()>
    ensures written { OnOk result (Appends (W.contents to.old) (W.contents to.new) (take at out.now)) }
    ensures begun { OnErr result (AppendsBeginning (W.contents to.old) (W.contents to.new) (take at out.now)) }
{
    if at < out.len() {
        return crate::text(to, &out[0..at]);
    }
    crate::text(to, out)
}

// A buffer that is full is written first.
fn byte<W: Write>(to: &mut W, out: &mut [u8], at: usize, b: u8) -> io::Result<usize>
    ensures ok { IfOk result (λ n. gathered out.new n ≡ puts (b ∷ []) (gathered out.old at)) }
    ensures err { OnErr result (HoldsBeginning (b ∷ []) (gathered out.old at) out.new) }
{
    if at < out.len() {
        out[at] = b;
        return Ok(at + 1);
    }
    flush(to, out, at)?;
    if 0 < out.len() {
        out[0] = b;
        return Ok(1);
    }
    Ok(0)
}

pub fn text<W: Write>(to: &mut W, out: &mut [u8], at: usize, s: &[u8]) -> io::Result<usize>
    ensures ok { IfOk result (λ n. gathered out.new n ≡ puts s.now (gathered out.old at)) }
    ensures err { OnErr result (HoldsBeginning s.now (gathered out.old at) out.new) }
{
    let mut n = at;
    for i in 0..s.len() {
        n = byte(to, out, n, s[i])?;
    }
    Ok(n)
}

// In decimal.
fn number<W: Write>(to: &mut W, out: &mut [u8], at: usize, n: u64) -> io::Result<usize>
    ensures ok { IfOk result (λ k. gathered out.new k ≡ puts (decimal_of n) (gathered out.old at)) }
    ensures err { OnErr result (HoldsBeginning (decimal_of n) (gathered out.old at) out.new) }
{
    let mut digits = [0u8; 20];
    let from = crate::digits::decimal(n, &mut digits);
    text(to, out, at, &digits[from..])
}

pub fn number_u32<W: Write>(to: &mut W, out: &mut [u8], at: usize, n: u32) -> io::Result<usize>
    ensures ok { IfOk result (λ k. gathered out.new k ≡ puts (decimal_of n) (gathered out.old at)) }
    ensures err { OnErr result (HoldsBeginning (decimal_of n) (gathered out.old at) out.new) }
{
    number(to, out, at, n as u64)
}

fn signed<W: Write>(to: &mut W, out: &mut [u8], at: usize, z: i64) -> io::Result<usize>
    ensures ok { IfOk result (λ n. gathered out.new n ≡ puts (signed_of z) (gathered out.old at)) }
    ensures err { OnErr result (HoldsBeginning (signed_of z) (gathered out.old at) out.new) }
{
    let size = crate::magnitude(z);
    if z < 0 {
        let n = byte(to, out, at, b'-')?;
        return number(to, out, n, size);
    }
    number(to, out, at, size)
}

// Two hexadecimal digits.
fn pair<W: Write>(to: &mut W, out: &mut [u8], at: usize, b: u8) -> io::Result<usize>
    ensures ok { IfOk result (λ n. gathered out.new n ≡ puts (hex_of (b ∷ [])) (gathered out.old at)) }
    ensures err { OnErr result (HoldsBeginning (hex_of (b ∷ [])) (gathered out.old at) out.new) }
{
    let n = byte(to, out, at, crate::digit(b / 16))?;
    byte(to, out, n, crate::digit(b % 16))
}

// FIELDS OF A LINE: a space, and a number

pub fn field<W: Write>(to: &mut W, out: &mut [u8], at: usize, n: u64) -> io::Result<usize>
    ensures ok { IfOk result (λ k. gathered out.new k ≡ puts (field_of n) (gathered out.old at)) }
    ensures err { OnErr result (HoldsBeginning (field_of n) (gathered out.old at) out.new) }
{
    let after = byte(to, out, at, b' ')?;
    number(to, out, after, n)
}

// Narrow numbers have functions of their own, since a parameter is known to fit its type.
pub fn field_u8<W: Write>(to: &mut W, out: &mut [u8], at: usize, n: u8) -> io::Result<usize>
    ensures ok { IfOk result (λ k. gathered out.new k ≡ puts (field_of n) (gathered out.old at)) }
    ensures err { OnErr result (HoldsBeginning (field_of n) (gathered out.old at) out.new) }
{
    field(to, out, at, n as u64)
}

pub fn field_u32<W: Write>(to: &mut W, out: &mut [u8], at: usize, n: u32) -> io::Result<usize>
    ensures ok { IfOk result (λ k. gathered out.new k ≡ puts (field_of n) (gathered out.old at)) }
    ensures err { OnErr result (HoldsBeginning (field_of n) (gathered out.old at) out.new) }
{
    field(to, out, at, n as u64)
}

pub fn field_i64<W: Write>(to: &mut W, out: &mut [u8], at: usize, z: i64) -> io::Result<usize>
    ensures ok { IfOk result (λ n. gathered out.new n ≡ puts (0x20 ∷ signed_of z) (gathered out.old at)) }
    ensures err { OnErr result (HoldsBeginning (0x20 ∷ signed_of z) (gathered out.old at) out.new) }
{
    let after = byte(to, out, at, b' ')?;
    signed(to, out, after, z)
}

// The end of a line that is refused.
pub fn refused<W: Write>(
    to: &mut W,
    out: &mut [u8],
    at: usize,
    numbers: Numbers,
) -> io::Result<usize>
    ensures ok { IfOk result (λ n. gathered out.new n ≡ puts (refused_of numbers) (gathered out.old at)) }
    ensures err { OnErr result (HoldsBeginning (refused_of numbers) (gathered out.old at) out.new) }
{
    let n = text(to, out, at, b" refused")?;
    let n = field_u8(to, out, n, numbers.number)?;
    let n = field_u32(to, out, n, numbers.page)?;
    let n = field(to, out, n, numbers.cell as u64)?;
    let n = field(to, out, n, numbers.column as u64)?;
    let n = field_u8(to, out, n, numbers.mark)?;
    text(to, out, n, b"\n")
}

// VALUES: a space and the sort, as the caller spells them, and what it is

pub fn integer<W: Write>(
    to: &mut W,
    out: &mut [u8],
    at: usize,
    sort: &[u8],
    z: i64,
) -> io::Result<usize>
    ensures ok { IfOk result (λ n. gathered out.new n ≡ puts (sort.now ++ signed_of z) (gathered out.old at)) }
    ensures err { OnErr result (HoldsBeginning (sort.now ++ signed_of z) (gathered out.old at) out.new) }
{
    let n = text(to, out, at, sort)?;
    signed(to, out, n, z)
}

// By its bits, which tell one NaN from another, and -0.0 from 0.
pub fn real<W: Write>(
    to: &mut W,
    out: &mut [u8],
    at: usize,
    sort: &[u8],
    bits: u64,
) -> io::Result<usize>
    ensures ok { IfOk result (λ n. gathered out.new n ≡ puts (sort.now ++ bits_of bits) (gathered out.old at)) }
    ensures err { OnErr result (HoldsBeginning (sort.now ++ bits_of bits) (gathered out.old at) out.new) }
{
    let n = text(to, out, at, sort)?;
    let mut spelt = [0u8; 16];
    crate::digits::hexadecimal(bits, &mut spelt);
    text(to, out, n, &spelt)
}

// The bytes of a text or a blob.
pub fn long<W: Write>(
    to: &mut W,
    out: &mut [u8],
    at: usize,
    sort: &[u8],
    s: &[u8],
) -> io::Result<usize>
    ensures ok { IfOk result (λ n. gathered out.new n ≡ puts (sort.now ++ hex_of s.now) (gathered out.old at)) }
    ensures err { OnErr result (HoldsBeginning (sort.now ++ hex_of s.now) (gathered out.old at) out.new) }
{
    let mut n = text(to, out, at, sort)?;
    for i in 0..s.len() {
        n = pair(to, out, n, s[i])?;
    }
    Ok(n)
}
