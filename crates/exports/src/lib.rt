// Every public call for C and Rust: a turn of types and nothing more. `exports_c` hands them out under their names.
//
// Each function calls one of a reader and hands its answer on as a struct of numbers (`turns`). Nothing is decided here. The
// values of a row are stored in a table that is lent (`filled`). include/shorgavel.h declares the calls. A slice is a pointer
// that is not null and a length, also where it is empty. Pages count from 0 in the old reading and from 1 in the other two.
#![tactic(auto)]

ghost use Rattle.std.specs.Prelude.{◌≡◌, ◌/◌, length, eqb};
ghost use Rattle.place.specs.Place.{file_page};
ghost use Rattle.spilled.specs.Lent as lent;
ghost use Rattle.marked.specs.Marked as marked;
ghost use Rattle.halves.specs.Halves.{room_of, within};
ghost use Rattle.asked.specs.Asked.{share_by};
ghost use Rattle.pages.specs.Pages.{open_by};
ghost use Rattle.run.specs.Run.{filled_by, over};
ghost use Rattle.filled.specs.Row.{row_by, row_over};
ghost use Rattle.gathered.specs.Rows.{row_lent, table_lent, buffer_lent};
ghost use Rattle.chosen.specs.Chosen.{chosen_by};
ghost use Rattle.addresses.specs.Screen.{screened, answers_over};
ghost use Rattle.exports.specs.Calls.{header_of, pages_of, counted_rows, listed_rows, rows_over, counted_trusted, listed_trusted, trusted_over, head_of, entry_of, entries_over, opening_of, row_in, old_cell, file_cell, guarded_cell, old_run, file_run, old_shown_of, file_shown_of, guarded_shown_of, file_lent_of, guarded_lent_of, cell_lent};

use columns::Cursor;
use halves::Share;
use reading::Reading;
use table::Entry;
use turns::types::{
    Along, Cell, Filled, Header, LentRow, LentValue, Listed, Opened, Opening, PageHead, Pages, Row,
    Screened, Shown,
};
use turns::{rows, shown};

// THE DATABASE AND ITS PAGES, by the number of the reading: 0 is old, any other number file

pub fn shorgavel_header(db: &[u8], reading: u8) -> Header
    ensures { result ≡ header_of reading db.now }
{
    pages::header_by(header::header_of(db, asked::reading_of(reading)))
}

// How many pages there are, behind the header's checks.
pub fn shorgavel_pages(db: &[u8], reading: u8) -> Pages
    ensures { result ≡ pages_of reading db.now }
{
    pages::pages_by(shape::shape_of(db, asked::reading_of(reading)))
}

// The head of a page, every cell of which is checked. No page has more cells than the room that is named here.
pub fn shorgavel_page(db: &[u8], reading: u8, number: u32) -> PageHead
    ensures { result ≡ head_of reading number 65536 db.now }
{
    pages::head_by(table::check_page(db, asked::page_of(reading, number), 65_536))
}

// The page call: the same, and the entries of the cells in the table that is lent. As many are written as the head counts,
// none on a refusal; a table with less room is refused.
pub fn shorgavel_entries(db: &[u8], reading: u8, number: u32, table: &mut [Entry]) -> PageHead
    ensures { (result ≡ head_of reading number (length table.old) db.now)
        × (table.new ≡ entries_over reading number db.now result.head.cells table.old) }
{
    entries_by(db, reading, number, Share::Whole, table)
}

// The page call of one of two trucks over one table: it is lent a half of the table, the first by 0 and the second by any other number.
// No other place is written, and a half with less room is refused.
pub fn shorgavel_half_entries(
    db: &[u8],
    reading: u8,
    number: u32,
    half: u8,
    table: &mut [Entry],
) -> PageHead
    ensures { (result ≡ head_of reading number (room_of (share_by half) (length table.old)) db.now)
        × (table.new ≡ within (share_by half) (entries_over reading number db.now result.head.cells) table.old) }
{
    let share = asked::share_of(half);
    entries_by(db, reading, number, share, table)
}

// The page call by numbers, that is lent a share of a table.
fn entries_by(db: &[u8], reading: u8, number: u32, share: Share, table: &mut [Entry]) -> PageHead
    ensures { (result ≡ head_of reading number (room_of share (length table.old)) db.now)
        × (table.new ≡ within share (entries_over reading number db.now result.head.cells) table.old) }
{
    let page = asked::page_of(reading, number);
    let answer = lent::page(db, page, share, table);
    pages::head_by(answer)
}

// The entry of cell `i`; zeros where there is no such cell.
pub fn shorgavel_entry(db: &[u8], reading: u8, number: u32, i: usize) -> Entry
    ensures { result ≡ entry_of reading number i db.now }
{
    table::entry_by(db, page::open_page(db, asked::page_of(reading, number)), i)
}

// ALL ROWS OF A TABLE, by its root page, as the file reading walks along it

// How many there are, once all of the table is checked.
pub fn shorgavel_table_count(db: &[u8], root: u32) -> Listed
    ensures { result ≡ counted_rows root db.now }
{
    pages::listed_by(walk::count(db, root))
}

// The same, and the rows in a list that is lent, three words each: page, cell, row number. A list with fewer places than rows
// is refused, and nothing is written on a refusal.
pub fn shorgavel_table_rows(db: &[u8], root: u32, list: &mut [i64]) -> Listed
    ensures { (result ≡ listed_rows (length list.old / 3) root db.now)
        × (list.new ≡ rows_over (length list.old / 3) root db.now list.old) }
{
    pages::listed_by(listing::list(db, root, list))
}

// The same two of a table that both may trust: the walk accepts it, and the guarded reading refuses none of its rows. What the
// walk refuses is told first, a list that is too short with it, and else the first row that the guarded reading refuses.
pub fn shorgavel_trusted_count(db: &[u8], root: u32) -> Listed
    ensures { result ≡ counted_trusted root db.now }
{
    pages::listed_by(trust::count(db, root))
}

pub fn shorgavel_trusted_rows(db: &[u8], root: u32, list: &mut [i64]) -> Listed
    ensures { (result ≡ listed_trusted (length list.old / 3) root db.now)
        × (list.new ≡ trusted_over (length list.old / 3) root db.now list.old) }
{
    pages::listed_by(listing::trusted(db, root, list))
}

// A PAGE THAT IS OPENED, for its cells one after the other: 2 is guarded, which opens table leaves alone

pub fn shorgavel_open(db: &[u8], reading: u8, number: u32) -> Opening
    ensures { result ≡ opening_of reading number db.now }
{
    if asked::is_guarded(reading) {
        return pages::opening_by(reading, guarded::open_page(db, number));
    }
    let answer = page::open_page(db, asked::page_of(reading, number));
    pages::opening_by(asked::told(reading), answer)
}

// A row with its values, as many as the table has places; the cursor goes on behind them. On a refusal the table is left as
// it was.
pub fn shorgavel_row_in(db: &[u8], opened: Opened, i: usize, table: &mut [i64]) -> Row
    ensures { (result ≡ row_by (length table.old / 5) db.now (row_in opened i db.now))
        × (table.new ≡ row_over (length table.old / 5) db.now (row_in opened i db.now) table.old) }
{
    let guarded = asked::is_guarded(opened.reading);
    filled::row_in(db, pages::open_by(opened), guarded, i, table)
}

// ONE CELL

pub fn shorgavel_old_cell(db: &[u8], number: u32, i: usize) -> Cell
    ensures { result ≡ old_cell number i db.now }
{
    let found = row::found(db, place::old(number), i);
    rows::cell_by(found, row_head::shortest_of(db, found))
}

pub fn shorgavel_file_cell(db: &[u8], number: u32, i: usize) -> Cell
    ensures { result ≡ file_cell number i db.now }
{
    let found = row::found(db, place::file(number), i);
    rows::cell_by(found, row_head::shortest_of(db, found))
}

pub fn shorgavel_guarded_cell(db: &[u8], number: u32, i: usize) -> Cell
    ensures { result ≡ guarded_cell number i db.now }
{
    let found = guarded::found(db, number, i);
    rows::cell_by(found, row_head::shortest_of(db, found))
}

// THE VALUES OF A ROW

// As many values from a cursor on as the table has places, and the cursor behind them. A place is a `turns::types::Value`,
// five words of 64 bits.
pub fn shorgavel_old_values(db: &[u8], along: Along, table: &mut [i64]) -> Filled
    ensures { (result ≡ filled_by (old_run along (length table.old / 5) db.now))
        × (table.new ≡ over (old_run along (length table.old / 5) db.now) table.old) }
{
    let cursor: Cursor = rows::cursor_of(Reading::Old, along);
    run::fill(db, cursor, table)
}

// A guarded row goes on with it too.
pub fn shorgavel_file_values(db: &[u8], along: Along, table: &mut [i64]) -> Filled
    ensures { (result ≡ filled_by (file_run along (length table.old / 5) db.now))
        × (table.new ≡ over (file_run along (length table.old / 5) db.now) table.old) }
{
    let cursor: Cursor = rows::cursor_of(Reading::File, along);
    run::fill(db, cursor, table)
}

// ONE VALUE: column `k` of cell `i`

pub fn shorgavel_old_value(db: &[u8], number: u32, i: usize, k: usize) -> Shown
    ensures { result ≡ old_shown_of number i k db.now }
{
    shown::old_shown(row_values::old::value(db, number, i, k))
}

pub fn shorgavel_file_value(db: &[u8], number: u32, i: usize, k: usize) -> Shown
    ensures { result ≡ file_shown_of number i k db.now }
{
    shown::file_shown(row_values::file::value(db, number, i, k))
}

pub fn shorgavel_guarded_value(db: &[u8], number: u32, i: usize, k: usize) -> Shown
    ensures { result ≡ guarded_shown_of number i k db.now }
{
    shown::file_shown(guarded::value(db, number, i, k))
}

// A SCREENFUL AT ONCE, by the number of the reading: 0 is old, 2 guarded, any other number file

// The value at each address of a list, as the call on one value answers it: in three words an address (`screen`), in eight an
// answer, a `turns::types::Shown`. What is refused stops no other. A list of answers with fewer places is refused before anything
// is read, and left as it was; so are the places behind the last answer.
pub fn shorgavel_screen(db: &[u8], reading: u8, addresses: &[u64], answers: &mut [i64]) -> Screened
    ensures { (result ≡ screened (length answers.old) (length addresses.now))
        × (answers.new ≡ answers_over (chosen_by reading) db.now addresses.now answers.old) }
{
    screen::screen(db, chosen::chosen_of(reading), addresses, answers)
}

// WITH A GATHER BUFFER LENT, where a payload that spills is gathered: the bytes of a text or a blob are then the buffer's. The
// buffer is left as it was where nothing is gathered.

pub fn shorgavel_file_value_lent(
    db: &[u8],
    number: u32,
    i: usize,
    k: usize,
    buffer: &mut [u8],
) -> LentValue
    ensures { (result ≡ file_lent_of number i k (length buffer.old) db.now)
        × (buffer.new ≡ lent.buffer_of (file_page number) i db.now buffer.old) }
{
    sources::lent_shown(spilled::value(db, number, i, k, buffer))
}

pub fn shorgavel_guarded_value_lent(
    db: &[u8],
    number: u32,
    i: usize,
    k: usize,
    buffer: &mut [u8],
) -> LentValue
    ensures { (result ≡ guarded_lent_of number i k (length buffer.old) db.now)
        × (buffer.new ≡ marked.buffer_of number i db.now buffer.old) }
{
    sources::lent_shown(marked::value(db, number, i, k, buffer))
}

// A row with its values, as `shorgavel_row_in` answers it where its payload is whole.
pub fn shorgavel_row_lent(
    db: &[u8],
    opened: Opened,
    i: usize,
    table: &mut [i64],
    buffer: &mut [u8],
) -> LentRow
    ensures { (result ≡ row_lent (length table.old / 5) db.now (cell_lent opened i (length buffer.old) db.now))
        × (table.new ≡ table_lent (length table.old / 5) db.now (cell_lent opened i (length buffer.old) db.now) table.old)
        × (buffer.new ≡ buffer_lent (eqb opened.reading 2) (open_by opened) i db.now buffer.old) }
{
    let guarded = asked::is_guarded(opened.reading);
    gathered::row_in(db, pages::open_by(opened), guarded, i, table, buffer)
}
