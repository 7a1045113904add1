// Whether all varints that a reading took from a cell are in their shortest form, as SQLite and the gauge write them.
#![tactic(auto)]

ghost use Rattle.std.specs.Prelude.{◌≡◌};
ghost use Rattle.record.specs.Types.{types_of};
ghost use Rattle.shortest_cells.specs.Cells.{each_shortest, taken_shortest, told_shortest};

use cell::Cell;
use varint::Number;

// A number that a cell's kind lacks took no byte.
fn taken_shortest(number: Number) -> bool
    ensures { result ≡ taken_shortest number }
{
    number.length == 0 || shortest::is_shortest(number)
}

// The types of a record, up to one that has no end.
fn each_shortest(types: &[u8], limit: usize) -> bool
    ensures { result ≡ each_shortest (types_of limit types.now) }
{
    let mut rest = types;
    while let Ok(serial) = varint::read(rest, limit) {
        if !shortest::is_shortest(serial) {
            return false;
        }
        rest = &rest[serial.length..];
    }
    true
}

// A cell that was accepted, whose types are `types`, read in at most `limit` bytes each.
pub fn all_shortest(cell: Cell, types: &[u8], limit: usize) -> bool
    ensures { result ≡ told_shortest cell (types_of limit types.now) }
{
    taken_shortest(cell.numbers.size)
        && taken_shortest(cell.numbers.key)
        && taken_shortest(cell.header)
        && taken_shortest(cell.row)
        && each_shortest(types, limit)
}
