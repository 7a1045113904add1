// The guarded reading with a gather buffer lent. A spilled cell that the file reading accepts is refused with its lowest mark
// of five, so whatever is shown lies in the database.
#![tactic(auto)]

ghost use Rattle.std.specs.Prelude.{◌≡◌, length};
ghost use Rattle.marks.specs.Marks.{or_spilled};
ghost use Rattle.row.specs.Found.{found_by};
ghost use Rattle.chain.specs.Gathered.{gathered_in, buffer_by};
ghost use Rattle.marked.specs.Marked.{marked_in, lent_in, buffer_in, lent_of, buffer_of, value_of};
ghost use Rattle.marked.specs.Steps.{mark_over};

use answers::{Fault, Mark, Refusal};
use page::Open;
use reading::Reading;
use row::FoundCell;
use spilled::{FoundIn, ValueIn};
use spills::Source;

// The lowest mark of a spilled cell whose payload is `payload`.
fn mark_of(payload: &[u8], found: FoundCell) -> Mark
    ensures { result ≡ or_spilled (mark_over found payload.now) }
{
    let FoundCell { cell, cursor, .. } = found;
    let len = cursor.stop.saturating_sub(cursor.at);
    let lowest = marks::mark_of(
        parts::part(payload, cursor.at, len),
        reading::limit_of(Reading::File),
        cell.numbers.size.length,
        cell.numbers.key.length,
        cell.header.length,
    );
    marks::or_spilled(lowest)
}

// Why a spilled cell is refused: as the file reading refuses it, or with its mark.
#[tactic(auto, unfolding(crate::specs::Marked::marked_in))]
fn marked_in(db: &[u8], opened: Open, i: usize, buffer: &mut [u8]) -> Refusal
    ensures answer { result ≡ marked_in opened i (length buffer.old) db.now }
    ensures buffer { buffer.new ≡ buffer_by (gathered_in opened i (length buffer.old) db.now) buffer.old }
{
    match spilled::spilled_in(db, opened, i, buffer) {
        Err(refusal) => refusal,
        Ok(FoundIn { found, .. }) => {
            let mark = mark_of(parts::part(buffer, 0, found.cell.payload), found);
            found.page.refusal_in(i, Fault::Marked(mark))
        }
    }
}

// Cell `i` of an opened page.
#[tactic(auto, unfolding(crate::specs::Marked::lent_in, crate::specs::Marked::buffer_in))]
pub fn found_in(db: &[u8], opened: Open, i: usize, buffer: &mut [u8]) -> Result<FoundCell, Refusal>
    ensures answer { result ≡ found_by (lent_in opened i (length buffer.old) db.now) }
    ensures buffer { buffer.new ≡ buffer_in opened i db.now buffer.old }
{
    match guarded::found_in(db, opened, i) {
        Err(refusal) if spills::spills_by(refusal) => Err(marked_in(db, opened, i, buffer)),
        answer => answer,
    }
}

// Cell `i` of the table leaf of that number.
#[tactic(auto, unfolding(crate::specs::Marked::lent_of, crate::specs::Marked::buffer_of))]
pub fn found(db: &[u8], number: u32, i: usize, buffer: &mut [u8]) -> Result<FoundCell, Refusal>
    ensures answer { result ≡ found_by (lent_of number i (length buffer.old) db.now) }
    ensures buffer { buffer.new ≡ buffer_of number i db.now buffer.old }
{
    found_in(db, guarded::open_page(db, number)?, i, buffer)
}

// Column `k` of the cell.
pub fn value(
    db: &[u8],
    number: u32,
    i: usize,
    k: usize,
    buffer: &mut [u8],
) -> Result<ValueIn, Refusal>
    ensures answer { result ≡ value_of number i k (length buffer.old) db.now }
    ensures buffer { buffer.new ≡ buffer_of number i db.now buffer.old }
{
    let column = row::column_of(db, found(db, number, i, buffer), k);
    spilled::shown_from(row_values::file::shown(db, column), Source::Database)
}
