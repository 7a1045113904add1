// The calls of `exports` under their names for C: each is handed on, and promises what the call does.
//
// A crate is a library that others cite or an archive that C links, and not both. include/shorgavel.h declares these names.
#![tactic(auto)]

ghost use Rattle.std.specs.Prelude.{◌≡◌, ◌/◌, length, eqb};
ghost use Rattle.place.specs.Place.{file_page};
ghost use Rattle.spilled.specs.Lent as lent;
ghost use Rattle.marked.specs.Marked as marked;
ghost use Rattle.halves.specs.Halves.{room_of, within};
ghost use Rattle.asked.specs.Asked.{share_by};
ghost use Rattle.pages.specs.Pages.{open_by};
ghost use Rattle.run.specs.Run.{filled_by, over};
ghost use Rattle.filled.specs.Row.{row_by, row_over};
ghost use Rattle.gathered.specs.Rows.{row_lent, table_lent, buffer_lent};
ghost use Rattle.chosen.specs.Chosen.{chosen_by};
ghost use Rattle.addresses.specs.Screen.{screened, answers_over};
ghost use Rattle.exports.specs.Calls.{header_of, pages_of, counted_rows, listed_rows, rows_over, counted_trusted, listed_trusted, trusted_over, head_of, entry_of, entries_over, opening_of, row_in, old_cell, file_cell, guarded_cell, old_run, file_run, old_shown_of, file_shown_of, guarded_shown_of, file_lent_of, guarded_lent_of, cell_lent};

use table::Entry;
use turns::types::{
    Along, Cell, Filled, Header, LentRow, LentValue, Listed, Opened, Opening, PageHead, Pages, Row,
    Screened, Shown,
};

#[unsafe(no_mangle)]
pub extern "C" fn shorgavel_header(db: &[u8], reading: u8) -> Header
    ensures { result ≡ header_of reading db.now }
{
    exports::shorgavel_header(db, reading)
}

#[unsafe(no_mangle)]
pub extern "C" fn shorgavel_pages(db: &[u8], reading: u8) -> Pages
    ensures { result ≡ pages_of reading db.now }
{
    exports::shorgavel_pages(db, reading)
}

#[unsafe(no_mangle)]
pub extern "C" fn shorgavel_page(db: &[u8], reading: u8, number: u32) -> PageHead
    ensures { result ≡ head_of reading number 65536 db.now }
{
    exports::shorgavel_page(db, reading, number)
}

#[unsafe(no_mangle)]
pub extern "C" fn shorgavel_entries(
    db: &[u8],
    reading: u8,
    number: u32,
    table: &mut [Entry],
) -> PageHead
    ensures { (result ≡ head_of reading number (length table.old) db.now)
        × (table.new ≡ entries_over reading number db.now result.head.cells table.old) }
{
    exports::shorgavel_entries(db, reading, number, table)
}

#[unsafe(no_mangle)]
pub extern "C" fn shorgavel_half_entries(
    db: &[u8],
    reading: u8,
    number: u32,
    half: u8,
    table: &mut [Entry],
) -> PageHead
    ensures { (result ≡ head_of reading number (room_of (share_by half) (length table.old)) db.now)
        × (table.new ≡ within (share_by half) (entries_over reading number db.now result.head.cells) table.old) }
{
    exports::shorgavel_half_entries(db, reading, number, half, table)
}

#[unsafe(no_mangle)]
pub extern "C" fn shorgavel_entry(db: &[u8], reading: u8, number: u32, i: usize) -> Entry
    ensures { result ≡ entry_of reading number i db.now }
{
    exports::shorgavel_entry(db, reading, number, i)
}

#[unsafe(no_mangle)]
pub extern "C" fn shorgavel_table_count(db: &[u8], root: u32) -> Listed
    ensures { result ≡ counted_rows root db.now }
{
    exports::shorgavel_table_count(db, root)
}

#[unsafe(no_mangle)]
pub extern "C" fn shorgavel_table_rows(db: &[u8], root: u32, list: &mut [i64]) -> Listed
    ensures { (result ≡ listed_rows (length list.old / 3) root db.now)
        × (list.new ≡ rows_over (length list.old / 3) root db.now list.old) }
{
    exports::shorgavel_table_rows(db, root, list)
}

#[unsafe(no_mangle)]
pub extern "C" fn shorgavel_trusted_count(db: &[u8], root: u32) -> Listed
    ensures { result ≡ counted_trusted root db.now }
{
    exports::shorgavel_trusted_count(db, root)
}

#[unsafe(no_mangle)]
pub extern "C" fn shorgavel_trusted_rows(db: &[u8], root: u32, list: &mut [i64]) -> Listed
    ensures { (result ≡ listed_trusted (length list.old / 3) root db.now)
        × (list.new ≡ trusted_over (length list.old / 3) root db.now list.old) }
{
    exports::shorgavel_trusted_rows(db, root, list)
}

#[unsafe(no_mangle)]
pub extern "C" fn shorgavel_open(db: &[u8], reading: u8, number: u32) -> Opening
    ensures { result ≡ opening_of reading number db.now }
{
    exports::shorgavel_open(db, reading, number)
}

#[unsafe(no_mangle)]
pub extern "C" fn shorgavel_row_in(db: &[u8], opened: Opened, i: usize, table: &mut [i64]) -> Row
    ensures { (result ≡ row_by (length table.old / 5) db.now (row_in opened i db.now))
        × (table.new ≡ row_over (length table.old / 5) db.now (row_in opened i db.now) table.old) }
{
    exports::shorgavel_row_in(db, opened, i, table)
}

#[unsafe(no_mangle)]
pub extern "C" fn shorgavel_old_cell(db: &[u8], number: u32, i: usize) -> Cell
    ensures { result ≡ old_cell number i db.now }
{
    exports::shorgavel_old_cell(db, number, i)
}

#[unsafe(no_mangle)]
pub extern "C" fn shorgavel_file_cell(db: &[u8], number: u32, i: usize) -> Cell
    ensures { result ≡ file_cell number i db.now }
{
    exports::shorgavel_file_cell(db, number, i)
}

#[unsafe(no_mangle)]
pub extern "C" fn shorgavel_guarded_cell(db: &[u8], number: u32, i: usize) -> Cell
    ensures { result ≡ guarded_cell number i db.now }
{
    exports::shorgavel_guarded_cell(db, number, i)
}

#[unsafe(no_mangle)]
pub extern "C" fn shorgavel_old_values(db: &[u8], along: Along, table: &mut [i64]) -> Filled
    ensures { (result ≡ filled_by (old_run along (length table.old / 5) db.now))
        × (table.new ≡ over (old_run along (length table.old / 5) db.now) table.old) }
{
    exports::shorgavel_old_values(db, along, table)
}

#[unsafe(no_mangle)]
pub extern "C" fn shorgavel_file_values(db: &[u8], along: Along, table: &mut [i64]) -> Filled
    ensures { (result ≡ filled_by (file_run along (length table.old / 5) db.now))
        × (table.new ≡ over (file_run along (length table.old / 5) db.now) table.old) }
{
    exports::shorgavel_file_values(db, along, table)
}

#[unsafe(no_mangle)]
pub extern "C" fn shorgavel_old_value(db: &[u8], number: u32, i: usize, k: usize) -> Shown
    ensures { result ≡ old_shown_of number i k db.now }
{
    exports::shorgavel_old_value(db, number, i, k)
}

#[unsafe(no_mangle)]
pub extern "C" fn shorgavel_file_value(db: &[u8], number: u32, i: usize, k: usize) -> Shown
    ensures { result ≡ file_shown_of number i k db.now }
{
    exports::shorgavel_file_value(db, number, i, k)
}

#[unsafe(no_mangle)]
pub extern "C" fn shorgavel_guarded_value(db: &[u8], number: u32, i: usize, k: usize) -> Shown
    ensures { result ≡ guarded_shown_of number i k db.now }
{
    exports::shorgavel_guarded_value(db, number, i, k)
}

#[unsafe(no_mangle)]
pub extern "C" fn shorgavel_screen(
    db: &[u8],
    reading: u8,
    addresses: &[u64],
    answers: &mut [i64],
) -> Screened
    ensures { (result ≡ screened (length answers.old) (length addresses.now))
        × (answers.new ≡ answers_over (chosen_by reading) db.now addresses.now answers.old) }
{
    exports::shorgavel_screen(db, reading, addresses, answers)
}

#[unsafe(no_mangle)]
pub extern "C" fn shorgavel_file_value_lent(
    db: &[u8],
    number: u32,
    i: usize,
    k: usize,
    buffer: &mut [u8],
) -> LentValue
    ensures { (result ≡ file_lent_of number i k (length buffer.old) db.now)
        × (buffer.new ≡ lent.buffer_of (file_page number) i db.now buffer.old) }
{
    exports::shorgavel_file_value_lent(db, number, i, k, buffer)
}

#[unsafe(no_mangle)]
pub extern "C" fn shorgavel_guarded_value_lent(
    db: &[u8],
    number: u32,
    i: usize,
    k: usize,
    buffer: &mut [u8],
) -> LentValue
    ensures { (result ≡ guarded_lent_of number i k (length buffer.old) db.now)
        × (buffer.new ≡ marked.buffer_of number i db.now buffer.old) }
{
    exports::shorgavel_guarded_value_lent(db, number, i, k, buffer)
}

#[unsafe(no_mangle)]
pub extern "C" fn shorgavel_row_lent(
    db: &[u8],
    opened: Opened,
    i: usize,
    table: &mut [i64],
    buffer: &mut [u8],
) -> LentRow
    ensures { (result ≡ row_lent (length table.old / 5) db.now (cell_lent opened i (length buffer.old) db.now))
        × (table.new ≡ table_lent (length table.old / 5) db.now (cell_lent opened i (length buffer.old) db.now) table.old)
        × (buffer.new ≡ buffer_lent (eqb opened.reading 2) (open_by opened) i db.now buffer.old) }
{
    exports::shorgavel_row_lent(db, opened, i, table, buffer)
}
