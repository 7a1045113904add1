// The walk over a table: from its root down through each child and then the last one, with every row number and key checked,
// and the rows counted.
//
// From the file format, 1.6 "B-tree Pages". A walk is of the file reading.
#![tactic(auto)]

ghost use Rattle.std.specs.Prelude.{◌≡◌};
ghost use Rattle.trace.specs.Table.{table_by, table_at, entered, last_child};
ghost use Rattle.trace.specs.Tree.{leaf_of, walk_of};
ghost use Rattle.trace.specs.Counted.{counted};
ghost use Rattle.walk.specs.Counted.{count_of};

use answers::{Reason, Refusal};
use kinds::Kind;
use order::Down;
use page::Open;
use reading::Reading;
use trace::{State, Table, Walked};

// How many pages deep a table is at most; its root is the first.
pub const DEPTH: usize = 20;

// PAGES

// What a page is to a walk.
fn table_of(opened: Open) -> Result<Table, Refusal>
    ensures { result ≡ table_by opened.kind opened }
{
    match opened.kind {
        Kind::InteriorTable => Ok(Table::Interior(opened)),
        Kind::LeafTable => Ok(Table::Leaf(opened)),
        Kind::InteriorIndex | Kind::LeafIndex => Err(opened.page.refusal(Reason::IndexPage)),
    }
}

// A page of a table, opened.
#[tactic(auto, unfolding(trace::specs::Table::table_at))]
pub fn table_at(db: &[u8], page: u32) -> Result<Table, Refusal>
    ensures { result ≡ table_at page db.now }
{
    table_of(page::open_page(db, place::file(page))?)
}

// A page that is due, where as many visits are left and it may be as deep.
#[tactic(auto, unfolding(trace::specs::Table::entered))]
fn enter(db: &[u8], page: u32, depth: usize, visits: usize) -> Result<Table, Refusal>
    ensures { result ≡ entered depth visits page db.now }
{
    if visits == 0 {
        return Err(place::file(page).refusal(Reason::VisitsUsedUp));
    }
    if depth == 0 {
        return Err(place::file(page).refusal(Reason::TooDeep));
    }
    table_at(db, page)
}

// The last child of an interior page.
pub fn last_child(db: &[u8], opened: Open) -> u32
    ensures { result ≡ last_child opened db.now }
{
    let page = place::bytes_of(db, opened.at, opened.size);
    page::rightmost_of(parts::behind(page, opened.from), opened)
}

// THE WALK

// The cells of a leaf. The count stops at the largest number that it can hold. Out of line, so that the loop has the registers to
// itself.
#[inline(never)]
fn leaf(db: &[u8], opened: Open, most: i64, state: State, count: usize) -> Result<Walked, Refusal>
    ensures { result ≡ counted count (leaf_of opened db.now most opened.cells 0 state) }
{
    let mut low = state.low;
    let mut n = count;
    for i in 0..opened.cells {
        low = Some(order::key_placed(db, opened, i, low, most)?);
        n = n.saturating_add(1);
    }
    Ok(Walked {
        state: State { low, ..state },
        count: n,
    })
}

// The table under a page whose numbers are at most `most`, at most `depth` pages deep.
fn walk(
    db: &[u8],
    page: u32,
    most: i64,
    depth: usize,
    state: State,
    count: usize,
) -> Result<Walked, Refusal>
    ensures { result ≡ counted count (walk_of depth db.now page most state) }
{
    let table = enter(db, page, depth, state.visits)?;
    let mut visits = state.visits - 1;
    let mut low = state.low;
    let opened = match table {
        Table::Leaf(opened) => return leaf(db, opened, most, State { visits, low }, count),
        Table::Interior(opened) => opened,
    };
    let mut n = count;
    for i in 0..opened.cells {
        let Down { child, key } = order::child_placed(db, opened, i, low, most)?;
        let below = walk(db, child, key, depth - 1, State { visits, low }, n)?;
        visits = below.state.visits;
        low = Some(key);
        n = below.count;
    }
    let child = last_child(db, opened);
    walk(db, child, most, depth - 1, State { visits, low }, n)
}

// The rows of the table whose root that page is, counted once all of it is checked.
pub fn count(db: &[u8], root: u32) -> Result<usize, Refusal>
    ensures { result ≡ count_of root db.now }
{
    let shape = shape::shape_of(db, Reading::File)?;
    let start = State {
        visits: shape.pages,
        low: None,
    };
    Ok(walk(db, root, i64::MAX, DEPTH, start, 0)?.count)
}
