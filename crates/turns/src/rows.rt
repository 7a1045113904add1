// Cells and rows by numbers, and a cursor along a row, there and back.
ghost use Rattle.std.specs.Prelude.{◌≡◌};
ghost use Rattle.turns.specs.Rows.{nowhere, along_of, cursor_of, filled_of, cell_by, no_row, row_of};

use crate::refusals::{no_refusal, refused_by};
use crate::types::{Along, Cell, Filled, Row};
use answers::Refusal;
use columns::Cursor;
use reading::Reading;
use row::FoundCell;

// CURSORS

// The cursor of a cell that is refused.
fn no_cursor() -> Along
    ensures { result ≡ nowhere }
{
    Along {
        at: 0,
        stop: 0,
        value: 0,
        end: 0,
    }
}

fn along_of(cursor: Cursor) -> Along
    ensures { result ≡ along_of cursor }
{
    Along {
        at: cursor.at,
        stop: cursor.stop,
        value: cursor.value,
        end: cursor.end,
    }
}

pub fn cursor_of(reading: Reading, along: Along) -> Cursor
    ensures { result ≡ cursor_of reading along }
{
    Cursor {
        reading,
        at: along.at,
        stop: along.stop,
        value: along.value,
        end: along.end,
    }
}

// So many values, and the cursor behind them.
pub fn filled_of(count: usize, cursor: Cursor) -> Filled
    ensures { result ≡ filled_of count cursor }
{
    Filled {
        count,
        along: along_of(cursor),
    }
}

// CELLS AND ROWS

pub fn cell_by(answer: Result<FoundCell, Refusal>, shortest: bool) -> Cell
    ensures { result ≡ cell_by answer shortest }
{
    match answer {
        Err(refusal) => Cell {
            refused: refused_by(refusal),
            row: 0,
            columns: 0,
            along: no_cursor(),
            shortest: 0,
        },
        Ok(found) => Cell {
            refused: no_refusal(),
            row: fields::signed_of(found.cell.row.value),
            columns: found.cell.columns,
            along: along_of(found.cursor),
            shortest: u8::from(shortest),
        },
    }
}

// A row that is refused.
pub fn no_row(refusal: Refusal) -> Row
    ensures { result ≡ no_row refusal }
{
    Row {
        refused: refused_by(refusal),
        number: 0,
        columns: 0,
        count: 0,
        along: no_cursor(),
    }
}

// A row, and what a table was filled with of it.
pub fn row_of(number: u64, columns: usize, filled: Filled) -> Row
    ensures { result ≡ row_of number columns filled }
{
    Row {
        refused: no_refusal(),
        number: fields::signed_of(number),
        columns,
        count: filled.count,
        along: filled.along,
    }
}
