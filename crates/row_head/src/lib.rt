// The column count and the row number of one cell, and whether its varints are in their shortest form.
//
// A call makes the header's checks and the page's, then checks the whole record of its cell, and no other cell. On a page that the
// page call accepts the calls answer what the cell's entry has: a theorem of `page_theorems`.
#![tactic(auto)]

ghost use Rattle.std.specs.Prelude.{◌≡◌};
ghost use Rattle.row_head.specs.Head.{shortest_in, shortest_for, count_for, count_of, row_for, row_of};

use answers::Refusal;
use place::Page;
use row::FoundCell;

#[derive(Clone, Copy)]
pub struct ColumnCount {
    pub columns: usize,
    pub shortest: bool,
}

#[derive(Clone, Copy)]
pub struct RowNumber {
    pub number: i64,
    pub shortest: bool,
}

// Whether all varints that were taken from a cell that was found are in their shortest form.
fn shortest_in(db: &[u8], found: FoundCell) -> bool
    ensures { result ≡ shortest_in found db.now }
{
    let cursor = found.cursor;
    let types = parts::part(db, cursor.at, cursor.stop.saturating_sub(cursor.at));
    shortest_cells::all_shortest(found.cell, types, reading::limit_of(cursor.reading))
}

// The same of an answer; not of a cell that is refused.
pub fn shortest_of(db: &[u8], answer: Result<FoundCell, Refusal>) -> bool
    ensures { result ≡ shortest_for answer db.now }
{
    answer.is_ok_and(|found| shortest_in(db, found))
}

// How many columns a cell has that was found; 0 in an interior table cell.
pub fn count_of(db: &[u8], answer: Result<FoundCell, Refusal>) -> Result<ColumnCount, Refusal>
    ensures { result ≡ count_for answer db.now }
{
    let found = answer?;
    Ok(ColumnCount {
        columns: found.cell.columns,
        shortest: shortest_in(db, found),
    })
}

// Its row number or key; 0 in an index cell of the file reading.
pub fn row_number_of(db: &[u8], answer: Result<FoundCell, Refusal>) -> Result<RowNumber, Refusal>
    ensures { result ≡ row_for answer db.now }
{
    let found = answer?;
    Ok(RowNumber {
        number: fields::signed_of(found.cell.row.value),
        shortest: shortest_in(db, found),
    })
}

// Of cell `i` of the page.
pub fn count(db: &[u8], page: Page, i: usize) -> Result<ColumnCount, Refusal>
    ensures { result ≡ count_of page i db.now }
{
    count_of(db, row::found(db, page, i))
}

pub fn row_number(db: &[u8], page: Page, i: usize) -> Result<RowNumber, Refusal>
    ensures { result ≡ row_of page i db.now }
{
    row_number_of(db, row::found(db, page, i))
}
