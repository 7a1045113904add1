// The guarded reading: a row only where the old reading and the file reading agree.
//
// A cell of a table leaf is read as the file reading has it and refused where its record has a mark; the old reading is
// never run. That it agrees wherever a cell is shown is a theorem of `agreement`. Pages count from 1. A cursor goes on with
// `row_values::file::next`.
#![tactic(auto)]

ghost use Rattle.std.specs.Prelude.{◌≡◌, ◌≤◌, length};
ghost use Rattle.columns.specs.Columns.{types_at};
ghost use Rattle.marks.specs.Marks.{lowest};
ghost use Rattle.row.specs.Found.{found_by};
ghost use Rattle.guarded.specs.Guarded.{open_of, located_in, located_of, count_of, row_of, cursor_of, shown_of};

use answers::{Fault, Mark, Reason, Refusal};
use columns::Cursor;
use page::Open;
use row::FoundCell;
use row_head::{ColumnCount, RowNumber};
use values::file::Value;

// The table leaf of that number.
#[tactic(auto, unfolding(crate::specs::Guarded::open_of))]
pub fn open_page(db: &[u8], number: u32) -> Result<Open, Refusal>
    ensures { result ≡ open_of number db.now }
{
    let site = site::site_of(db, place::file(number))?;
    if !site.kind.is_leaf_table() {
        return Err(site.page.refusal(Reason::KindUnfit));
    }
    page::open_site(db, site)
}

// The lowest mark of a cell that was found, whose types lie in the bytes.
fn marking(db: &[u8], found: FoundCell) -> Option<Mark>
    requires order { found.cursor.at ≤ found.cursor.stop }
    requires bound { found.cursor.stop ≤ length db.now }
    ensures { result ≡ lowest found.cell.numbers.size.length found.cell.numbers.key.length found.cell.header.length (types_at found.cursor db.now) }
{
    let cursor = found.cursor;
    let numbers = found.cell.numbers;
    marks::mark_of(
        &db[cursor.at..cursor.stop],
        reading::limit_of(cursor.reading),
        numbers.size.length,
        numbers.key.length,
        found.cell.header.length,
    )
}

// Cell `i` of a page that `open_page` opened, if its record has no mark: what `found` answers, with no check of header and
// page made again. A page that a caller makes up is asked for its kind, too.
pub fn found_in(db: &[u8], opened: Open, i: usize) -> Result<FoundCell, Refusal>
    ensures { result ≡ found_by (located_in opened i db.now) }
{
    let page = opened.page;
    if !opened.kind.is_leaf_table() {
        return Err(page.refusal(Reason::KindUnfit));
    }
    let found = row::found_in(db, opened, i)?;
    if let Some(mark) = marking(db, found) {
        return Err(page.refusal_in(i, Fault::Marked(mark)));
    }
    Ok(found)
}

// Cell `i` of the table leaf of that number, if its record has no mark.
#[tactic(auto, unfolding(crate::specs::Guarded::located_of))]
pub fn found(db: &[u8], number: u32, i: usize) -> Result<FoundCell, Refusal>
    ensures { result ≡ found_by (located_of number i db.now) }
{
    found_in(db, open_page(db, number)?, i)
}

// How many columns cell `i` of the page has.
#[tactic(auto, unfolding(crate::specs::Guarded::count_of))]
pub fn count(db: &[u8], number: u32, i: usize) -> Result<ColumnCount, Refusal>
    ensures { result ≡ count_of number i db.now }
{
    row_head::count_of(db, found(db, number, i))
}

// Its row number.
#[tactic(auto, unfolding(crate::specs::Guarded::row_of))]
pub fn row_number(db: &[u8], number: u32, i: usize) -> Result<RowNumber, Refusal>
    ensures { result ≡ row_of number i db.now }
{
    row_head::row_number_of(db, found(db, number, i))
}

// The cursor before its first column.
#[tactic(auto, unfolding(crate::specs::Guarded::cursor_of))]
pub fn cursor(db: &[u8], number: u32, i: usize) -> Result<Cursor, Refusal>
    ensures { result ≡ cursor_of number i db.now }
{
    row::cursor_of(found(db, number, i))
}

// Column `k` of the cell.
#[tactic(auto, unfolding(crate::specs::Guarded::shown_of))]
pub fn value(db: &[u8], number: u32, i: usize, k: usize) -> Result<Value, Refusal>
    ensures { result ≡ shown_of number i k db.now }
{
    row_values::file::shown(db, row::column_of(db, found(db, number, i), k))
}
