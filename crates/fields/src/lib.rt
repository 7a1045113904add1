// Big-endian numbers, unsigned and in two's complement: the file format's header fields, pointers and integer values.
//
// Every reader is handed the part of the bytes that begins at its number, takes as many bytes as its name says and
// leaves the rest. It is total: where the part ends early, the bytes that are there spell the number. So a field of one
// to eight bytes is `be_u64` of a part that has just these bytes. From the Rust: be_i48.rs, and the numbers that it takes
// from nom, under nom's names.
#![tactic(auto)]

ghost use Rattle.std.specs.Prelude.{◌≡◌, ◌*◌, ◌^◌, ◌≤◌, ◌<◌, length, get_or};
ghost use Rattle.std.specs.Int.Signed.{mag};
ghost use Rattle.fields.specs.Fields.{be, twos, unsigned, signed};

// The number that all the bytes of a field spell. Where their count is a constant, this is one load.
fn whole(field: &[u8]) -> u64
    requires { length field.now ≤ 8 }
    ensures value { result ≡ be field.now }
    ensures bound { result < 256 ^ length field.now }
{
    let mut value: u64 = 0;
    for &byte in field {
        value = value * 256 + u64::from(byte);
    }
    value
}

// The number that the first `width` bytes spell. The two ways do not meet before the field is read, so that a reader of a fixed
// width is one load.
fn spelt(part: &[u8], width: usize) -> u64
    requires { width ≤ 8 }
    ensures value { result ≡ unsigned width part.now }
    ensures bound { result < 256 ^ width }
{
    match part.get(..width) {
        Some(field) => whole(field),
        None => whole(part),
    }
}

// One reader for a type, in nom's names, and not one with the width as a const parameter: that would leave the turn to the type to
// every caller.
pub fn be_u16(part: &[u8]) -> u16
    ensures { result ≡ unsigned 2 part.now }
{
    spelt(part, 2) as u16
}

pub fn be_u32(part: &[u8]) -> u32
    ensures { result ≡ unsigned 4 part.now }
{
    spelt(part, 4) as u32
}

pub fn be_u64(part: &[u8]) -> u64
    ensures { result ≡ unsigned 8 part.now }
{
    spelt(part, 8)
}

// The weight of the top bit in a field of one byte, of two, and so on to eight.
const TOPS: [u64; 8] = [
    0x80,
    0x8000,
    0x80_0000,
    0x8000_0000,
    0x80_0000_0000,
    0x8000_0000_0000,
    0x80_0000_0000_0000,
    0x8000_0000_0000_0000,
];

// The number whose two's complement is `v`, where `top` is the weight of the top bit.
fn from_twos(v: u64, top: u64) -> i64
    requires within { v < 2 * top }
    requires at_most { top ≤ 2 ^ 63 }
    ensures value { result ≡ twos (2 * top) v }
    ensures bound { mag result < top }
{
    if v < top {
        v as i64
    } else {
        -1 - ((top - 1 - (v - top)) as i64)
    }
}

// The number in two's complement that the first `width` bytes spell.
fn signed_spelt(part: &[u8], width: usize) -> i64
    requires some { 1 ≤ width }
    requires at_most { width ≤ 8 }
    ensures value { result ≡ signed width part.now }
    ensures bound { 2 * mag result < 256 ^ width }
{
    from_twos(spelt(part, width), TOPS[width - 1])
}

pub fn be_i8(part: &[u8]) -> i8
    ensures { result ≡ signed 1 part.now }
{
    signed_spelt(part, 1) as i8
}

pub fn be_i16(part: &[u8]) -> i16
    ensures { result ≡ signed 2 part.now }
{
    signed_spelt(part, 2) as i16
}

// A byte, for a sum. With the bytes bound by a slice's pattern, a number of 24 bits cost one instruction more.
fn byte(part: &[u8], i: usize) -> u64
    requires { i < length part.now }
    ensures value { result ≡ get_or part.now i 0 }
    ensures bound { result < 256 }
{
    u64::from(part[i])
}

// The sum of the bytes times powers of 256, less 2 to the 24 where the top bit is set.
pub fn be_i24(part: &[u8]) -> i32
    ensures { result ≡ signed 3 part.now }
{
    if part.len() < 3 {
        return signed_spelt(part, 3) as i32;
    }
    let sum = byte(part, 0) * 0x1_0000 + byte(part, 1) * 0x100 + byte(part, 2);
    if sum < 0x80_0000 {
        return sum as i32;
    }
    (sum as i64 - 0x100_0000) as i32
}

pub fn be_i32(part: &[u8]) -> i32
    ensures { result ≡ signed 4 part.now }
{
    signed_spelt(part, 4) as i32
}

// The sum of the bytes times powers of 256, less 2 to the 48 where the top bit is set.
pub fn be_i48(part: &[u8]) -> i64
    ensures { result ≡ signed 6 part.now }
{
    if part.len() < 6 {
        return signed_spelt(part, 6);
    }
    let sum = byte(part, 0) * 0x100_0000_0000
        + byte(part, 1) * 0x1_0000_0000
        + byte(part, 2) * 0x100_0000
        + byte(part, 3) * 0x1_0000
        + byte(part, 4) * 0x100
        + byte(part, 5);
    if sum < 0x8000_0000_0000 {
        return sum as i64;
    }
    sum as i64 - 0x1_0000_0000_0000
}

// The same as two fields, each one load: six bytes are none. For the values of a row at once, where the sum would cost more than one
// instruction in a hundred.
pub fn load_i48(part: &[u8]) -> i64
    ensures { result ≡ signed 6 part.now }
{
    if part.len() < 6 {
        return signed_spelt(part, 6);
    }
    be_i16(part) as i64 * 0x1_0000_0000 + spelt(&part[2..], 4) as i64
}

pub fn be_i64(part: &[u8]) -> i64
    ensures { result ≡ signed 8 part.now }
{
    signed_spelt(part, 8)
}

// The number whose two's complement in 64 bits is `v`.
pub fn signed_of(v: u64) -> i64
    ensures { result ≡ twos (2 ^ 64) v }
{
    from_twos(v, 0x8000_0000_0000_0000)
}
