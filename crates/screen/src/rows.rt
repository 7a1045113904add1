// The addresses that name one cell: of a row that is found, and of one that is refused.
ghost use Rattle.std.specs.Prelude.{◌≡◌, ◌+◌, ◌*◌, ◌-◌, ◌^◌, ◌≤◌, ◌<◌, length};
ghost use Rattle.serial.specs.Serial.{width_of};
ghost use Rattle.columns.specs.Columns.{slot_of, behind};
ghost use Rattle.checked.specs.Whole.{Whole, bytes_in};
ghost use Rattle.checked.specs.Past.{past_of};
ghost use Rattle.turns.specs.Refusals.{accepted};
ghost use Rattle.turns.specs.Words.{value_at};
ghost use Rattle.chosen.specs.Chosen.{refused_shown, slot_shown};
ghost use Rattle.addresses.specs.Turns.{Room, named_page, named_cell, same_cell, Turn, CellAnswers};
ghost use Rattle.screen.specs.Coming.{Coming, type_at};

use crate::lists::{cell_at, column_at, page_at, put};
use answers::{Reason, Refusal};
use checked::{type_in, width_in};
use columns::Cursor;
use reading::Reading;
use turns::refusals::{no_refusal, refused_by};
use turns::shown::empty_value;
use turns::types::Shown;
use varint::Number;

// Whether there is an address `i`, and it names the cell that `at` names.
fn names_same(addresses: &[u64], count: usize, i: usize, at: usize) -> bool
    requires room { 3 * count ≤ length addresses.now }
    requires there { at < count }
    ensures { result ≡ same_cell addresses.now count i at }
{
    i < count
        && page_at(addresses, i) == page_at(addresses, at)
        && cell_at(addresses, i) == cell_at(addresses, at)
}

fn refused_shown(refusal: Refusal) -> Shown
    ensures { result ≡ refused_shown refusal }
{
    Shown {
        refused: refused_by(refusal),
        value: empty_value(),
    }
}

// What is shown of a column that a row has.
fn value_shown(db: &[u8], reading: Reading, serial: u64, at: usize) -> Shown
    ensures refused { result.refused ≡ accepted }
    ensures value { result.value ≡ value_at reading serial at db.now }
{
    Shown {
        refused: no_refusal(),
        value: words::value_at(db, reading, serial, at),
    }
}

// Answers the addresses from `at` on that name one cell, which is refused, and answers where they end.
pub fn refused_in(
    refusal: Refusal,
    at: usize,
    count: usize,
    addresses: &[u64],
    answers: &mut [i64],
) -> usize
    requires room { Room count addresses.now answers.old }
    requires there { at < count }
    ensures { Turn (CellAnswers (named_page at addresses.now) (named_cell at addresses.now) (λ k. refused_shown refusal))
        count addresses.now at result answers.old answers.new }
{
    let shown = refused_shown(refusal);
    let mut i = at;
    loop {
        put(answers, i, shown);
        i += 1;
        if !names_same(addresses, count, i, at) {
            return i;
        }
    }
}

// The type at a cursor before which there is one.
fn type_at(db: &[u8], here: Cursor) -> Number
    requires { Coming here db.now }
    ensures { result ≡ type_at here db.now }
{
    let serial = u64::from(db[here.at]);
    if serial < 128 {
        return Number {
            value: serial,
            length: 1,
        };
    }
    type_in(&db[here.at..here.stop])
}

// The cursor behind a column of that type.
fn moved(here: Cursor, serial: Number) -> Cursor
    requires type_ends { here.at + serial.length < 2 ^ 64 }
    requires value_ends { here.value + bytes_in (width_of serial.value) < 2 ^ 64 }
    ensures { result ≡ behind serial.length (bytes_in (width_of serial.value)) here }
{
    Cursor {
        at: here.at + serial.length,
        value: here.value + width_in(serial.value) as usize,
        ..here
    }
}

// The cursor behind `k` columns of a row that was checked.
fn past(db: &[u8], first: Cursor, columns: usize, k: usize) -> Cursor
    requires whole { Whole first columns db.now }
    requires there { k ≤ columns }
    ensures { result ≡ past_of k first db.now }
{
    let mut here = first;
    for _passed in 0..k {
        here = moved(here, type_at(db, here));
    }
    here
}

// Answers the addresses from `at` on that name one cell, a row that was checked, and answers where they end. The cursor stays
// behind the column that was shown last: as long as columns follow one another, none is gone along twice.
pub fn in_row(
    db: &[u8],
    reading: Reading,
    first: Cursor,
    columns: usize,
    at: usize,
    count: usize,
    addresses: &[u64],
    answers: &mut [i64],
) -> usize
    requires whole { Whole first columns db.now }
    requires room { Room count addresses.now answers.old }
    requires there { at < count }
    ensures { Turn (CellAnswers (named_page at addresses.now) (named_cell at addresses.now)
        (λ k. slot_shown reading (named_page at addresses.now) db.now (slot_of k first db.now)))
        count addresses.now at result answers.old answers.new }
{
    let mut here = first;
    let mut column: usize = 0;
    let mut i = at;
    loop {
        let k = column_at(addresses, i);
        if k < columns {
            if k != column {
                here = past(db, first, columns, k);
            }
            let serial = type_at(db, here);
            let shown = value_shown(db, reading, serial.value, here.value);
            put(answers, i, shown);
            here = moved(here, serial);
            column = k + 1;
        } else {
            let page = page_at(addresses, at);
            let reason = Reason::NoSuchColumn;
            put(answers, i, refused_shown(Refusal::OnPage { page, reason }));
        }
        i += 1;
        if !names_same(addresses, count, i, at) {
            return i;
        }
    }
}
