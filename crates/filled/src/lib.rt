// A row with its values in a table that is lent. Its record was checked when it was found, so nothing is looked for twice (`whole`); what
// is stored is what `run` stores, word by word.
#![tactic(auto)]

mod whole;

ghost use Rattle.std.specs.Prelude.{◌≡◌, ◌/◌, length};
ghost use Rattle.usual.specs.Usual.{row_in};
ghost use Rattle.filled.specs.Row.{row_by, row_over};

use page::Open;
use turns::rows;
use turns::types::Row;

// Cell `i` of an opened page, in the guarded reading or in that of the page, with its values. That they are all there is known
// where the row is found, so both are one function.
pub fn row_in(db: &[u8], opened: Open, guarded: bool, i: usize, table: &mut [i64]) -> Row
    ensures { (result ≡ row_by (length table.old / 5) db.now (row_in guarded opened i db.now))
        × (table.new ≡ row_over (length table.old / 5) db.now (row_in guarded opened i db.now) table.old) }
{
    match usual::row_in(db, opened, guarded, i) {
        Err(refusal) => rows::no_row(refusal),
        Ok(found) => {
            let filled = whole::fill(db, found.cursor, found.columns, table);
            rows::row_of(found.number, found.columns, filled)
        }
    }
}
