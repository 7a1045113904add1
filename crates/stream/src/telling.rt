// How a refusal is told: with our numbers, or by the word alone, as it stands in the oracle's answers, which have none.
use answers::Numbers;
use print::out;
use std::io;
use std::io::Write;

#[derive(Clone, Copy)]
pub enum Telling {
    Numbers,
    Word,
}

// The end of a line that is refused.
pub fn refused<W: Write>(
    to: &mut W,
    out: &mut [u8],
    at: usize,
    telling: Telling,
    numbers: Numbers,
) -> io::Result<usize> {
    match telling {
        Telling::Numbers => out::refused(to, out, at, numbers),
        Telling::Word => out::text(to, out, at, b" refused\n"),
    }
}

// The same for a header, of which only the number is told.
pub fn header_refused<W: Write>(
    to: &mut W,
    out: &mut [u8],
    at: usize,
    telling: Telling,
    number: u8,
) -> io::Result<usize> {
    let n = out::text(to, out, at, b"header refused")?;
    match telling {
        Telling::Numbers => {
            let n = out::field_u8(to, out, n, number)?;
            out::text(to, out, n, b"\n")
        }
        Telling::Word => out::text(to, out, n, b"\n"),
    }
}
