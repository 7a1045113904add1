// All rows of a table in a list that is lent: the walk counts them once all of it is checked, and a second walk stores them. Of a
// table that both may trust the same.
//
// The second walk checks nothing again: that an accepted table has just these rows is proved of the first.
#![tactic(auto)]

ghost use Rattle.std.specs.Prelude.{◌≡◌, ◌+◌, ◌/◌, ◌≤◌, length, Ok};
ghost use Rattle.std.proofs.lemmas.List.Edits.{sets};
ghost use Rattle.standing.specs.Rows.{leaf_rows, all_rows};
ghost use Rattle.walk.specs.Counted.{count_of};
ghost use Rattle.listing.specs.Listed.{words_of, words, within, list_of, trusted_of, list_in};

use answers::{Reason, Refusal};
use fields::signed_of;
use page::Open;
use trace::Table;
use trust::Trust;

// Stores a row from a place on.
fn put(list: &mut [i64], at: usize, page: u32, cell: usize, number: i64)
    requires { at + 3 ≤ length list.old }
    ensures { list.new ≡ sets list.old at (words_of page cell number) }
{
    list[at] = signed_of(page as u64);
    list[at + 1] = signed_of(cell as u64);
    list[at + 2] = number;
}

// Stores the rows of a leaf from a place on, and answers the place behind them.
fn leaf_rows(db: &[u8], opened: Open, at: usize, list: &mut [i64]) -> usize
    requires { at + length (words (leaf_rows opened db.now opened.cells 0)) ≤ length list.old }
    ensures answer { result ≡ at + length (words (leaf_rows opened db.now opened.cells 0)) }
    ensures list { list.new ≡ sets list.old at (words (leaf_rows opened db.now opened.cells 0)) }
{
    let page = opened.page.number;
    let mut next = at;
    for i in 0..opened.cells {
        put(list, next, page, i, standing::number_in(db, opened, i));
        next += 3;
    }
    next
}

// Stores the rows of the table under a page from a place on, and answers the place behind them.
fn rows(db: &[u8], page: u32, depth: usize, at: usize, list: &mut [i64]) -> usize
    requires { at + length (words (all_rows depth db.now page)) ≤ length list.old }
    ensures answer { result ≡ at + length (words (all_rows depth db.now page)) }
    ensures list { list.new ≡ sets list.old at (words (all_rows depth db.now page)) }
{
    if depth == 0 {
        return at;
    }
    match walk::table_at(db, page) {
        Err(_) => at,
        Ok(Table::Leaf(opened)) => leaf_rows(db, opened, at, list),
        Ok(Table::Interior(opened)) => {
            let mut next = at;
            for i in 0..opened.cells {
                next = rows(db, standing::child_in(db, opened, i), depth - 1, next, list);
            }
            rows(db, walk::last_child(db, opened), depth - 1, next, list)
        }
    }
}

// Stores the rows of a table that was counted, where there are places for all of them.
fn fill(db: &[u8], root: u32, count: usize, list: &mut [i64]) -> Result<usize, Refusal>
    requires { count_of root db.now ≡ Ok count }
    ensures answer { result ≡ within (length list.old / 3) root (Ok count) }
    ensures list { list.new ≡ list_in result root db.now list.old }
{
    if list.len() / 3 < count {
        return Err(place::file(root).refusal(Reason::TableTooShort));
    }
    rows(db, root, walk::DEPTH, 0, list);
    Ok(count)
}

// The rows of the table whose root that page is, three words each: page, cell, row number. Where it is refused, nothing is
// written.
pub fn list(db: &[u8], root: u32, list: &mut [i64]) -> Result<usize, Refusal>
    ensures answer { result ≡ list_of (length list.old / 3) root db.now }
    ensures list { list.new ≡ list_in result root db.now list.old }
{
    fill(db, root, walk::count(db, root)?, list)
}

// The same of a table that both may trust. A list that is too short is told before a row that is refused.
pub fn trusted(db: &[u8], root: u32, list: &mut [i64]) -> Result<usize, Refusal>
    ensures answer { result ≡ trusted_of (length list.old / 3) root db.now }
    ensures list { list.new ≡ list_in result root db.now list.old }
{
    match trust::of_table(db, root)? {
        Trust::Parts { rows, first } => {
            if list.len() / 3 < rows {
                return Err(place::file(root).refusal(Reason::TableTooShort));
            }
            Err(first)
        }
        Trust::Agrees(count) => fill(db, root, count, list),
    }
}
