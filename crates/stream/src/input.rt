// A stream: for each database its length, four bytes, big-endian, and its bytes.
use print::input::read_full;
use std::io;
use std::io::Read;

// What the stream has next.
#[derive(Clone, Copy)]
pub enum Next {
    End,
    // It ends within a length or a database.
    Cut,
    // A database of so many bytes. They are at the start of the lent ones, if these are so many, and lost otherwise.
    Bytes(u32),
}

pub fn fetch<R: Read>(from: &mut R, db: &mut [u8]) -> io::Result<Next> {
    let mut head = [0u8; 4];
    let got = read_full(from, &mut head)?;
    if got == 0 {
        return Ok(Next::End);
    }
    if got < 4 {
        return Ok(Next::Cut);
    }
    let length = fields::be_u32(&head);
    if !take(from, db, length as usize)? {
        return Ok(Next::Cut);
    }
    Ok(Next::Bytes(length))
}

// Reads n bytes of the stream to the start of db, and answers whether they were all there. Of more bytes than db holds
// the first are lost.
fn take<R: Read>(from: &mut R, db: &mut [u8], n: usize) -> io::Result<bool> {
    let mut left = n;
    while db.len() < left {
        let got = read_full(from, db)?;
        if got == 0 {
            return Ok(false);
        }
        left -= got;
    }
    let got = read_full(from, &mut db[0..left])?;
    Ok(got == left)
}
