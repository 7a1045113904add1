// One cell of a page by itself: the cell with its cursor, and its columns by type and place.
//
// A call makes the header's checks and the page's, then checks the whole record of its cell, and no other cell. Its column count and
// its row number are in `row_head`, its values in `row_values`.
#![tactic(auto)]

ghost use Rattle.std.specs.Prelude.{◌≡◌};
ghost use Rattle.row.specs.Row.{cursor_by, cursor_of};
ghost use Rattle.row.specs.Found.{cursor_for, Lying, found_by};
ghost use Rattle.row.specs.Column.{column_from, column_of};
ghost use Rattle.cells.specs.Located.{located_in, located_of};

use answers::{Reason, Refusal};
use cell::Cell;
use cells::Located;
use columns::{Cursor, Slot};
use page::Open;
use place::Page;

// A cell that was checked, with its page and the cursor before its first column.
#[derive(Clone, Copy)]
pub struct FoundCell {
    pub page: Page,
    pub cell: Cell,
    pub cursor: Cursor,
}

// The cursor before the first column of a cell that lies in so many bytes.
fn cursor_in(bytes: usize, opened: Open, located: Located) -> Cursor
    requires { Lying opened located bytes }
    ensures { result ≡ cursor_for opened located }
{
    let cell = located.cell;
    let from = opened.at + located.pointer as usize + cell.numbers.length;
    let values = from + cell.values;
    Cursor {
        reading: opened.page.reading,
        at: from + cell.header.length,
        stop: values,
        value: values,
        end: from + cell.payload,
    }
}

// Cell `i` of a page that was opened, with no check of header and page made again.
pub fn found_in(db: &[u8], opened: Open, i: usize) -> Result<FoundCell, Refusal>
    ensures { result ≡ found_by (located_in opened i db.now) }
{
    let located = cells::cell_in(db, opened, i)?;
    Ok(FoundCell {
        page: opened.page,
        cell: located.cell,
        cursor: cursor_in(db.len(), opened, located),
    })
}

// Cell `i` of a page.
#[tactic(auto, unfolding(cells::specs::Located::located_of))]
pub fn found(db: &[u8], page: Page, i: usize) -> Result<FoundCell, Refusal>
    ensures { result ≡ found_by (located_of page i db.now) }
{
    found_in(db, page::open_page(db, page)?, i)
}

// The cursor of a cell, if it was found.
pub fn cursor_of(found: Result<FoundCell, Refusal>) -> Result<Cursor, Refusal>
    ensures { result ≡ cursor_by found }
{
    Ok(found?.cursor)
}

// The cursor before the first column of cell `i` of the page.
#[tactic(auto, unfolding(crate::specs::Row::cursor_of))]
pub fn cursor(db: &[u8], page: Page, i: usize) -> Result<Cursor, Refusal>
    ensures { result ≡ cursor_of page i db.now }
{
    cursor_of(found(db, page, i))
}

// Column `k` of a cell, if it was found.
pub fn column_of(db: &[u8], found: Result<FoundCell, Refusal>, k: usize) -> Result<Slot, Refusal>
    ensures { result ≡ column_from k db.now found }
{
    let FoundCell { page, cursor, .. } = found?;
    cursor.find(db, k).ok_or(page.refusal(Reason::NoSuchColumn))
}

// Column `k` of cell `i`: its type, and where its value stands.
pub fn column(db: &[u8], page: Page, i: usize, k: usize) -> Result<Slot, Refusal>
    ensures { result ≡ column_of page i k db.now }
{
    column_of(db, found(db, page, i), k)
}
