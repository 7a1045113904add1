// A payload that spills, gathered from its page and its overflow chain.
//
// From the file format, 1.7 "Cell Payload Overflow Pages"; how much stays on the page is in `kept`, the chain page by page in `links`. It is
// followed to its end before a byte of it is copied, so that a buffer is left as it was where the chain is refused.
#![tactic(auto)]

ghost use Rattle.std.specs.Prelude.{◌≡◌, true, ◌+◌, ◌-◌, ◌≤◌, length, take};
ghost use Rattle.links.specs.Links.{chain_of};
ghost use Rattle.links.specs.Whole.{Shaped, whole, content};
ghost use Rattle.chain.specs.Payload.{payload_of};
ghost use Rattle.chain.specs.Gathered.{gathered_with, held_by, buffer_by, payload_answer, gather_answer};
ghost use Rattle.chain.specs.Copied.{laid_at};

use answers::{Fault, Refusal};
use cell::Numbers;
use fields::be_u32;
use kinds::Kind;
use page::Open;
use parts::{least, less};
use reading::Reading;
use shape::Shape;

// Lays bytes over those of a buffer from `at` on, by way of an array: since that lies apart from both, the compiler makes one
// move of the two copies, and none of the array.
fn lay_by(bytes: &[u8], mut way: [u8; 65_536], at: usize, buffer: &mut [u8])
    requires { (length bytes.now ≤ 65536) × (at + length bytes.now ≤ length buffer.old) }
    ensures { buffer.new ≡ laid_at at bytes.now buffer.old }
{
    let n = bytes.len();
    way[..n].copy_from_slice(bytes);
    buffer[at..at + n].copy_from_slice(&way[..n]);
}

// The same of any bytes. No page has more than the array.
fn lay(bytes: &[u8], at: usize, buffer: &mut [u8])
    requires { at + length bytes.now ≤ length buffer.old }
    ensures { buffer.new ≡ laid_at at bytes.now buffer.old }
{
    if bytes.len() <= 65_536 {
        lay_by(bytes, [0; 65_536], at, buffer);
        return;
    }
    buffer[at..at + bytes.len()].copy_from_slice(bytes);
}

// Copies the content of a chain behind the first `at` bytes of a buffer, up to `size` bytes of it.
fn follow(
    db: &[u8],
    shape: Shape,
    first: u32,
    links: u64,
    at: usize,
    size: usize,
    buffer: &mut [u8],
)
    requires shaped { Shaped shape }
    requires room { (at ≤ size) × (size ≤ length buffer.old) }
    requires whole { whole (chain_of links shape first db.now) ≡ true }
    ensures { buffer.new
        ≡ laid_at at (take (size - at) (content (chain_of links shape first db.now))) buffer.old }
{
    let width = shape.end as usize - 4;
    let mut number = first;
    let mut here = at;
    for _link in 0..links {
        let Some(place) = place::place_of(db.len(), shape, place::file(number)) else {
            return;
        };
        let start = place.at;
        let n = least(width, size - here);
        let end = start + 4 + n;
        lay(&db[start + 4..end], here, buffer);
        number = be_u32(&db[start..]);
        here += n;
    }
}

// The payload of `p` bytes of a cell of that kind, whose bytes behind its numbers are `s`.
#[tactic(auto, unfolding(crate::specs::Payload::payload_of))]
fn gather(
    db: &[u8],
    shape: Shape,
    kind: Kind,
    p: u64,
    s: &[u8],
    buffer: &mut [u8],
) -> Result<usize, Fault>
    requires { Shaped shape }
    ensures answer { result ≡ payload_answer (payload_of kind shape (length buffer.old) p s.now db.now) }
    ensures buffer { buffer.new ≡ held_by (payload_of kind shape (length buffer.old) p s.now db.now) buffer.old }
{
    if (buffer.len() as u64) < p {
        return Err(Fault::BufferTooShort);
    }
    let kept = kept::kept_of(kind, shape.end, p);
    if (s.len() as u64) < kept + 4 {
        return Err(Fault::CellCut);
    }
    let first = be_u32(&s[kept as usize..]);
    let links = kept::links_of(shape.end, less(p, kept));
    if !links::is_whole(db, shape, first, links) {
        return Err(Fault::ChainUnfit);
    }
    let size = p as usize;
    let own = least(kept as usize, size);
    lay(&s[..own], 0, buffer);
    follow(db, shape, first, links, own, size, buffer);
    Ok(size)
}

// Gathers the payload of cell `i` of an opened page, which has these numbers, in a buffer that is lent, where it spills: how many
// bytes it has.
#[tactic(auto, unfolding(crate::specs::Gathered::gathered_with))]
pub fn gather_in(
    db: &[u8],
    opened: Open,
    i: usize,
    numbers: Numbers,
    buffer: &mut [u8],
) -> Result<usize, Refusal>
    ensures answer { result ≡ gather_answer (gathered_with opened i numbers (length buffer.old) db.now) }
    ensures buffer { buffer.new ≡ buffer_by (gathered_with opened i numbers (length buffer.old) db.now) buffer.old }
{
    let shape = shape::shape_of(db, Reading::File)?;
    let s = parts::behind(cells::part_in(db, opened, i), numbers.length);
    gather(db, shape, opened.kind, numbers.size.value, s, buffer).map_err(|fault| opened
        .page
        .refusal_in(i, fault))
}
