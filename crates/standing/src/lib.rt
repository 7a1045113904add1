// The rows that stand in a table, with no check of it: those of every leaf under its root, from left to right. An accepted walk
// has just these, so what goes along a table behind the walk checks nothing again.
#![tactic(auto)]

ghost use Rattle.std.specs.Prelude.{◌≡◌};
ghost use Rattle.cells.specs.Numbered.{numbers_in};
ghost use Rattle.keys.specs.Key.{key_in};
ghost use Rattle.standing.specs.Rows.{number_by, child_by};

use page::Open;

// The row number of cell `i` of a leaf; 0 where there is none.
pub fn number_in(db: &[u8], opened: Open, i: usize) -> i64
    ensures { result ≡ number_by (key_in opened i db.now) }
{
    keys::key_in(db, opened, i).unwrap_or(0)
}

// The child of cell `i` of an interior page; 0 where there is none.
pub fn child_in(db: &[u8], opened: Open, i: usize) -> u32
    ensures { result ≡ child_by (numbers_in opened i db.now) }
{
    cells::numbers_in(db, opened, i).map_or(0, |numbers| numbers.child)
}
