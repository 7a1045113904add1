// The page call for a caller that has no table to lend, so that tests of it can be covered: one of eight blanks is lent, and a
// place of it is shown.
#![tactic(auto)]

ghost use Rattle.std.specs.Prelude.{◌≡◌};
ghost use Rattle.probe.specs.Probe.{returned_of, probe_of};

use answers::Refusal;
use halves::Share;
use place::Page;
use table::{Entry, Head};

// What `probe` answers: a page call's own answer, and one place of the table that was lent.
#[derive(Clone, Copy)]
pub struct Probed {
    pub answer: Result<Head, Refusal>,
    pub entry: Entry,
}

// A page call's answer, with the table that was lent to it.
#[derive(Clone, Copy)]
struct Returned {
    answer: Result<Head, Refusal>,
    table: [Entry; 8],
}

// What a place of `probe`'s table holds before the call: no page has a kind of 255.
const BLANK: Entry = Entry {
    kind: 255,
    pointer: 7,
    child: 7,
    payload_size: 7,
    row: 7,
    header_size: 7,
    columns: 7,
};

// The page call for a caller that has no table to lend: one of eight blanks is lent, and its place i is shown, blank where
// there is no such place. With plain parameters, so that tests of the page call can be covered.
#[tactic(auto, unfolding(crate::specs::Probe::probe_of))]
pub fn probe(db: &[u8], asked: Page, i: usize) -> Probed
    ensures { result ≡ probe_of i asked db.now }
{
    let returned = lend(db, asked, [BLANK; 8]);
    Probed {
        answer: returned.answer,
        entry: returned.table.get(i).copied().unwrap_or(BLANK),
    }
}

// Lends the table to the page call, and hands it back.
fn lend(db: &[u8], asked: Page, mut table: [Entry; 8]) -> Returned
    ensures { result ≡ returned_of asked db.now table }
{
    let answer = lent::page(db, asked, Share::Whole, &mut table);
    Returned { answer, table }
}
