// A row at once with a gather buffer lent: its number, its column count and its values in a table that is lent.
//
// A row is found by the plain readers and filled in by the plain steps, whether it lies on its page or in the buffer. Who has
// many rows asks for each with no buffer first, by a shorter way, and comes here with those that are refused 18.
#![tactic(auto)]

ghost use Rattle.std.specs.Prelude.{◌≡◌, ◌/◌, length};
ghost use Rattle.gathered.specs.Rows.{lent_in, row_from, table_from, row_lent, table_lent, buffer_lent};

use page::Open;
use row::FoundCell;
use sources::lent_row;
use spilled::FoundIn;
use spills::Source;
use turns::rows;
use turns::types::LentRow;

// A cell that was found, with its values from the bytes that its cursor counts in.
fn row_from(bytes: &[u8], found: FoundCell, source: Source, table: &mut [i64]) -> LentRow
    ensures answer { result ≡ row_from (length table.old / 5) bytes.now found source }
    ensures table { table.new ≡ table_from (length table.old / 5) bytes.now found table.old }
{
    let FoundCell { cell, cursor, .. } = found;
    let filled = run::fill(bytes, cursor, table);
    lent_row(rows::row_of(cell.row.value, cell.columns, filled), source)
}

// Row `i` of an opened page, in the guarded reading or in that of the page.
pub fn row_in(
    db: &[u8],
    opened: Open,
    guarded: bool,
    i: usize,
    table: &mut [i64],
    buffer: &mut [u8],
) -> LentRow
    ensures answer { result ≡ row_lent (length table.old / 5) db.now (lent_in guarded opened i (length buffer.old) db.now) }
    ensures table { table.new ≡ table_lent (length table.old / 5) db.now (lent_in guarded opened i (length buffer.old) db.now) table.old }
    ensures buffer { buffer.new ≡ buffer_lent guarded opened i db.now buffer.old }
{
    if guarded {
        return match marked::found_in(db, opened, i, buffer) {
            Err(refusal) => lent_row(rows::no_row(refusal), Source::Database),
            Ok(found) => row_from(db, found, Source::Database, table),
        };
    }
    match spilled::found_in(db, opened, i, buffer) {
        Err(refusal) => lent_row(rows::no_row(refusal), Source::Database),
        Ok(FoundIn { found, source }) => match source {
            Source::Database => row_from(db, found, source, table),
            Source::Buffer => row_from(
                parts::part(buffer, 0, found.cell.payload),
                found,
                source,
                table,
            ),
        },
    }
}
