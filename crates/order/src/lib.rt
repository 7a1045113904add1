// The order of a table: each number, row number or key, is above all that came before it and at most a bound. Of a cell only its
// page number and its varints are looked at.
//
// From the file format, 1.6 "B-tree Pages".
#![tactic(auto)]

ghost use Rattle.std.specs.Prelude.{◌≡◌};
ghost use Rattle.order.specs.Order.{fits_in, placed_in, placed_key, placed_down};

use answers::{Fault, Refusal};
use page::Open;

// What an interior cell leads to.
#[derive(Clone, Copy)]
pub struct Down {
    pub child: u32,
    pub key: i64,
}

// Whether a number is above all that came before it and at most `most`.
fn fits(low: Option<i64>, most: i64, number: i64) -> bool
    ensures { result ≡ fits_in low most number }
{
    number <= most && low.is_none_or(|last| last < number)
}

// The row number of cell `i` of a leaf, in its place.
#[tactic(auto, unfolding(crate::specs::Order::placed_in))]
pub fn key_placed(
    db: &[u8],
    opened: Open,
    i: usize,
    low: Option<i64>,
    most: i64,
) -> Result<i64, Refusal>
    ensures { result ≡ placed_key (placed_in opened db.now most i low) }
{
    let number = keys::key_in(db, opened, i)?;
    if !fits(low, most, number) {
        return Err(opened.page.refusal_in(i, Fault::OutOfOrder));
    }
    Ok(number)
}

// The child and the key of cell `i` of an interior page, the key in its place.
#[tactic(auto, unfolding(crate::specs::Order::placed_in))]
pub fn child_placed(
    db: &[u8],
    opened: Open,
    i: usize,
    low: Option<i64>,
    most: i64,
) -> Result<Down, Refusal>
    ensures { result ≡ placed_down (placed_in opened db.now most i low) }
{
    let numbers = cells::numbers_in(db, opened, i)?;
    let key = fields::signed_of(numbers.key.value);
    if !fits(low, most, key) {
        return Err(opened.page.refusal_in(i, Fault::OutOfOrder));
    }
    Ok(Down {
        child: numbers.child,
        key,
    })
}
