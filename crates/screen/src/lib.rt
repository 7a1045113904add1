// A screenful at once: the values at a list of addresses, each as the single call answers it.
//
// The addresses of one screen lie on few pages and in few rows. A page stays open while the next address names it, and a row
// stays found while the next address names its cell, so that header, page and record are checked once for all of them. An
// address that is refused stops no other.
#![tactic(auto)]

mod lists;
mod rows;

ghost use Rattle.std.specs.Prelude.{◌≡◌, ◌<◌, length};
ghost use Rattle.chosen.specs.Chosen.{found_shown, located_in};
ghost use Rattle.row.specs.Found.{found_by};
ghost use Rattle.addresses.specs.Screen.{screened, answers_over};
ghost use Rattle.addresses.specs.Turns.{Room, named_page, named_cell, Turn, CellAnswers, PageAnswers, Single};

use crate::lists::{cell_at, count_of, page_at, places_of};
use crate::rows::{in_row, refused_in};
use answers::{Reason, Refusal};
use chosen::Chosen;
use page::Open;
use reading::Reading;
use turns::refusals::{no_refusal, refused_by};
use turns::types::Screened;

// The list is handed on as a slice with its count: in a struct that holds the slice, each contract names it by its moment and its field
// (`addresses.entry.words.now`), for one parameter less. That is no plainer.

// Answers the addresses from `at` on that name one cell of a page that is opened, and answers where they end.
fn in_cell(
    db: &[u8],
    reading: Reading,
    guarded: bool,
    opened: Open,
    at: usize,
    count: usize,
    addresses: &[u64],
    answers: &mut [i64],
) -> usize
    requires room { Room count addresses.now answers.old }
    requires there { at < count }
    ensures { Turn (CellAnswers (named_page at addresses.now) (named_cell at addresses.now)
        (found_shown reading (named_page at addresses.now) db.now (found_by (located_in guarded opened (named_cell at addresses.now) db.now))))
        count addresses.now at result answers.old answers.new }
{
    match chosen::found_in(db, guarded, opened, cell_at(addresses, at)) {
        Err(refusal) => refused_in(refusal, at, count, addresses, answers),
        Ok(row) => {
            let columns = row.cell.columns;
            in_row(
                db, reading, row.cursor, columns, at, count, addresses, answers,
            )
        }
    }
}

// Answers the addresses from `at` on that name one page, which is opened, and answers where they end.
fn on_open(
    db: &[u8],
    reading: Reading,
    guarded: bool,
    opened: Open,
    at: usize,
    count: usize,
    addresses: &[u64],
    answers: &mut [i64],
) -> usize
    requires room { Room count addresses.now answers.old }
    requires there { at < count }
    ensures { Turn (PageAnswers (named_page at addresses.now)
        (λ i. found_shown reading (named_page at addresses.now) db.now (found_by (located_in guarded opened i db.now))))
        count addresses.now at result answers.old answers.new }
{
    let page = page_at(addresses, at);
    let mut i = at;
    loop {
        i = in_cell(db, reading, guarded, opened, i, count, addresses, answers);
        if count <= i || page_at(addresses, i) != page {
            return i;
        }
    }
}

// Answers addresses from `at` on that name one page, and answers where they end.
fn on_page(
    db: &[u8],
    chosen: Chosen,
    at: usize,
    count: usize,
    addresses: &[u64],
    answers: &mut [i64],
) -> usize
    requires room { Room count addresses.now answers.old }
    requires there { at < count }
    ensures { Turn (Single chosen db.now) count addresses.now at result answers.old answers.new }
{
    match chosen::open_page(db, chosen, page_at(addresses, at)) {
        Err(refusal) => refused_in(refusal, at, count, addresses, answers),
        Ok(opened) => on_open(
            db,
            chosen.reading(),
            chosen.is_guarded(),
            opened,
            at,
            count,
            addresses,
            answers,
        ),
    }
}

// The answer to each address, in its place of the list of answers; those behind are left as they were. Where there are fewer
// places than addresses, nothing is read and nothing written.
pub fn screen(db: &[u8], chosen: Chosen, addresses: &[u64], answers: &mut [i64]) -> Screened
    ensures { (result ≡ screened (length answers.old) (length addresses.now))
        × (answers.new ≡ answers_over chosen db.now addresses.now answers.old) }
{
    let count = count_of(addresses.len());
    let places = places_of(answers.len());
    if places < count {
        return Screened {
            refused: refused_by(Refusal::OnPage {
                page: 0,
                reason: Reason::TableTooShort,
            }),
            count: 0,
        };
    }
    // A `while`, since each turn tells where the next begins.
    let mut i: usize = 0;
    while i < count {
        i = on_page(db, chosen, i, count, addresses, answers);
    }
    Screened {
        refused: no_refusal(),
        count,
    }
}
