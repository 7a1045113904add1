// The values of a cell as the file format has them.
ghost use Rattle.std.specs.Prelude.{◌≡◌};
ghost use Rattle.row_values.specs.File.{shown_by, shown_of, next_of};

use answers::Refusal;
use columns::{Cursor, Slot, Step};
use values::file::{Value, value_of};

// The value at a cursor, and the cursor behind it.
#[derive(Clone, Copy)]
pub struct Column {
    pub value: Value,
    pub next: Cursor,
}

// The value of a column, or why there is none.
pub fn shown(db: &[u8], column: Result<Slot, Refusal>) -> Result<Value, Refusal>
    ensures { result ≡ shown_by db.now column }
{
    let Slot { serial, at } = column?;
    Ok(value_of(serial, parts::behind(db, at), at))
}

// Column `k` of cell `i` of the page of that number.
#[tactic(auto, unfolding(crate::specs::File::shown_of))]
pub fn value(db: &[u8], number: u32, i: usize, k: usize) -> Result<Value, Refusal>
    ensures { result ≡ shown_of number i k db.now }
{
    shown(db, row::column(db, place::file(number), i, k))
}

// The value at a cursor.
#[tactic(auto, unfolding(crate::specs::File::next_of))]
pub fn next(db: &[u8], cursor: Cursor) -> Option<Column>
    ensures { result ≡ next_of cursor db.now }
{
    let Step { serial, at, next } = cursor.step(db)?;
    Some(Column {
        value: value_of(serial, parts::behind(db, at), at),
        next,
    })
}
