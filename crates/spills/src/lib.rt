// Payloads that spill: which do, by the numbers of a cell or by what a call with no gather buffer was refused with; and the bytes that
// a place counts in, where a buffer may hold them.
#![tactic(auto)]

ghost use Rattle.std.specs.Prelude.{◌≡◌};
ghost use Rattle.parts.specs.Part.{part_of};
ghost use Rattle.spills.specs.Spills.{spills, bytes_in};
ghost use Rattle.spills.specs.Over.{over};

use answers::{Fault, Refusal};
use page::Open;
use reading::Reading;

// The bytes that a place counts in.
#[derive(Clone, Copy)]
pub enum Source {
    Database,
    Buffer,
}

// Whether a call that was lent no buffer was refused for a payload that spills.
pub fn spills_by(refusal: Refusal) -> bool
    ensures { result ≡ spills refusal }
{
    matches!(
        refusal,
        Refusal::InCell {
            fault: Fault::PayloadSpills,
            ..
        }
    )
}

// Whether a payload of `p` bytes spills, in a cell of an opened page.
pub fn is_over(opened: Open, p: u64) -> bool
    ensures { result ≡ over opened p }
{
    opened.kind.has_size()
        && opened.page.reading == Reading::File
        && opened.kind.most_whole(opened.end) < p
}

// The bytes of a text or a blob: a part of the database's where its payload is whole, else of the gathered payload's.
pub fn bytes_of<'a>(
    db: &'a [u8],
    buffer: &'a [u8],
    source: Source,
    at: usize,
    len: usize,
) -> &'a [u8]
    ensures { result.now ≡ part_of at len (bytes_in source db.now buffer.now) }
{
    match source {
        Source::Database => parts::whole_part(db, at, len),
        Source::Buffer => parts::whole_part(buffer, at, len),
    }
}
