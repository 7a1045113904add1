// Whether both may trust a whole table: the walk accepts it, and then each of its rows is one that the guarded reading shows.
//
// The rows are gone along once more behind the walk, with nothing of it checked again.
#![tactic(auto)]

ghost use Rattle.std.specs.Prelude.{◌≡◌, Ok};
ghost use Rattle.trace.specs.declared.Table.TheVariants.{Leaf};
ghost use Rattle.trace.specs.Table.{table_at};
ghost use Rattle.standing.specs.Rows.{leaf_rows, all_rows};
ghost use Rattle.trust.specs.Trust.{first_refused, trust_of, trusted_count};

use answers::Refusal;
use page::Open;
use trace::Table;

#[derive(Clone, Copy)]
pub enum Trust {
    // So many rows, and the first that the guarded reading refuses.
    Parts { rows: usize, first: Refusal },
    // So many rows, and all of them are shown by the guarded reading.
    Agrees(usize),
}

// Of the rows of a leaf.
fn first_of(db: &[u8], opened: Open) -> Option<Refusal>
    requires { table_at opened.page.number db.now ≡ Ok (Leaf opened) }
    ensures { result ≡ first_refused db.now (leaf_rows opened db.now opened.cells 0) }
{
    for i in 0..opened.cells {
        if let Err(refusal) = guarded::found_in(db, opened, i) {
            return Some(refusal);
        }
    }
    None
}

// Of the rows under a page.
fn first_under(db: &[u8], page: u32, depth: usize) -> Option<Refusal>
    ensures { result ≡ first_refused db.now (all_rows depth db.now page) }
{
    if depth == 0 {
        return None;
    }
    match walk::table_at(db, page) {
        Err(_) => None,
        Ok(Table::Leaf(opened)) => first_of(db, opened),
        Ok(Table::Interior(opened)) => {
            for i in 0..opened.cells {
                let child = standing::child_in(db, opened, i);
                if let Some(refusal) = first_under(db, child, depth - 1) {
                    return Some(refusal);
                }
            }
            first_under(db, walk::last_child(db, opened), depth - 1)
        }
    }
}

// The table whose root that page is.
pub fn of_table(db: &[u8], root: u32) -> Result<Trust, Refusal>
    ensures { result ≡ trust_of root db.now }
{
    let rows = walk::count(db, root)?;
    match first_under(db, root, walk::DEPTH) {
        None => Ok(Trust::Agrees(rows)),
        Some(first) => Ok(Trust::Parts { rows, first }),
    }
}

// How many rows it has, where both may trust all of them.
pub fn count(db: &[u8], root: u32) -> Result<usize, Refusal>
    ensures { result ≡ trusted_count root db.now }
{
    match of_table(db, root)? {
        Trust::Parts { rows: _, first } => Err(first),
        Trust::Agrees(rows) => Ok(rows),
    }
}
