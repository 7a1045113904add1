// Varints: numbers of 64 bits in one to nine bytes, the most significant first.
//
// Each byte gives its low seven bits, and reading stops at the first byte whose top bit is clear; the ninth byte gives
// all its eight bits and ends the number. From the file format, 1.6 "B-tree Pages", and the Rust's varint.rs, which
// stops at five bytes: how many may be read is a parameter, and one function serves both readings.
#![tactic(auto)]

ghost use Rattle.std.specs.Prelude.{◌≡◌};
ghost use Rattle.varint.specs.Varint.{varint_of};

// A number, and how many bytes it took.
#[derive(Clone, Copy, Debug, PartialEq, Eq)]
pub struct Number {
    pub value: u64,
    pub length: usize,
}

#[derive(Clone, Copy, Debug, PartialEq, Eq)]
pub enum Cause {
    // The bytes end before the number does.
    CutShort,
    // The number goes on past the bytes that may be read.
    WithoutEnd,
}

// How many bytes the old reading takes at most.
pub const OLD_LIMIT: usize = 5;

// How many bytes the format has at most.
pub const FILE_LIMIT: usize = 9;

// Reads the varint of at most `limit` bytes at the slice's first byte. Most varints are one byte, which is looked at here,
// so that a caller has it at no cost.
pub fn read(s: &[u8], limit: usize) -> Result<Number, Cause>
    ensures { result ≡ varint_of limit s.now }
{
    let Some(&byte) = s.first() else {
        return read_on(s, limit);
    };
    if limit == 0 || 128 <= byte {
        return read_on(s, limit);
    }
    Ok(Number {
        value: u64::from(byte),
        length: 1,
    })
}

// The same, byte by byte.
fn read_on(s: &[u8], limit: usize) -> Result<Number, Cause>
    ensures { result ≡ varint_of limit s.now }
{
    let mut value: u64 = 0;
    let mut i: usize = 0;
    loop {
        if limit <= i {
            break Err(Cause::WithoutEnd);
        }
        let Some(&byte) = s.get(i) else {
            break Err(Cause::CutShort);
        };
        let b = u64::from(byte);
        if i == 8 {
            break Ok(Number {
                value: value * 256 + b,
                length: 9,
            });
        }
        if b < 128 {
            break Ok(Number {
                value: value * 128 + b,
                length: i + 1,
            });
        }
        value = value * 128 + b % 128;
        i += 1;
    }
}
