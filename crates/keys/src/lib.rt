// The row number or key of a cell, by itself: all that a walk over a table looks at in a leaf.
//
// From the file format, 1.6 "B-tree Pages": 64 bits of two's complement.
#![tactic(auto)]

ghost use Rattle.std.specs.Prelude.{◌≡◌};
ghost use Rattle.keys.specs.Key.{key_in};

use answers::Refusal;
use page::Open;

// The row number or key of cell `i` of a page that was opened, or that a caller made up.
pub fn key_in(db: &[u8], opened: Open, i: usize) -> Result<i64, Refusal>
    ensures { result ≡ key_in opened i db.now }
{
    let numbers = cells::numbers_in(db, opened, i)?;
    Ok(fields::signed_of(numbers.key.value))
}
