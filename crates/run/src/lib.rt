// The values of a row in a table that is lent: as many as it has places, from any cursor by the readers' own steps.
#![tactic(auto)]

ghost use Rattle.std.specs.Prelude.{◌≡◌, ◌/◌, length};
ghost use Rattle.run.specs.Run.{run_from, filled_by, over};

use columns::{Cursor, Step};
use turns::rows::filled_of;
use turns::types::Filled;

// Goes along the columns from a cursor on and stores the value of each, until there is none or the table is full.
pub fn fill(db: &[u8], first: Cursor, table: &mut [i64]) -> Filled
    ensures { (result ≡ filled_by (run_from (length table.old / 5) first db.now))
        × (table.new ≡ over (run_from (length table.old / 5) first db.now) table.old) }
{
    let places = words::places_of(table.len());
    let mut here = first;
    for n in 0..places {
        let Some(Step { serial, at, next }) = here.step(db) else {
            return filled_of(n, here);
        };
        let value = words::value_at(db, here.reading, serial, at);
        words::put_value(&mut table[5 * n..5 * n + 5], value);
        here = next;
    }
    filled_of(places, here)
}
