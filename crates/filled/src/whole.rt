// The values of a row whose record was checked, into a table that is lent: no value is looked for that might not be there.
ghost use Rattle.std.specs.Prelude.{◌≡◌, ◌+◌, ◌/◌, ◌^◌, ◌≤◌, ◌<◌, length, Some};
ghost use Rattle.std.proofs.lemmas.List.Edits.{sets};
ghost use Rattle.serial.specs.Serial.{length_of, width_of};
ghost use Rattle.turns.specs.Shown.{integer_of};
ghost use Rattle.turns.specs.Words.{words_of};
ghost use Rattle.run.specs.Run.{run_from, filled_by, over};
ghost use Rattle.checked.specs.Whole.{Whole, bytes_in};
ghost use Rattle.manners.specs.Manners.{long_from, value_by};
ghost use Rattle.filled.specs.Moved.{moved_to};

use checked::{type_in, width_in};
use columns::Cursor;
use fields::{be_i8, be_i16, be_i24, be_i32, be_i64, be_u64, load_i48};
use manners::{Manner, manner_of};
use turns::rows::filled_of;
use turns::shown::{empty_value, integer_of, long_of, real_of};
use turns::types::{Filled, Value};

// Stores a value, and answers where it ends.
fn put_at(table: &mut [i64], place: usize, value: Value, end: usize) -> usize
    requires { place + 5 ≤ length table.old }
    ensures end { result ≡ end }
    ensures table { table.new ≡ sets table.old place (words_of value) }
{
    words::put_value(&mut table[place..place + 5], value);
    end
}

// Stores an integer that is told to be of a width.
fn put_integer(table: &mut [i64], place: usize, width: u8, integer: i64, end: usize) -> usize
    requires { place + 5 ≤ length table.old }
    ensures end { result ≡ end }
    ensures table { table.new ≡ sets table.old place (words_of (integer_of width integer)) }
{
    put_at(table, place, integer_of(width, integer), end)
}

// Stores a text or a blob, and answers where it ends.
fn put_long(table: &mut [i64], place: usize, least: u64, serial: u64, at: usize) -> usize
    requires place { place + 5 ≤ length table.old }
    requires long { 12 ≤ serial }
    requires fits { at + length_of serial < 2 ^ 64 }
    ensures end { result ≡ at + length_of serial }
    ensures table { table.new ≡ sets table.old place (words_of (long_from least serial at)) }
{
    let len = ((serial - 12) / 2) as usize;
    let end = at + len;
    if serial < least {
        return put_at(table, place, empty_value(), end);
    }
    if serial % 2 == 0 {
        return put_at(table, place, long_of(4, at, len), end);
    }
    put_at(table, place, long_of(3, at, len), end)
}

// Stores the value of a type that has a width: its bytes begin the part, which stands at `at`. Answers where it ends.
fn put_value(
    part: &[u8],
    table: &mut [i64],
    place: usize,
    manner: Manner,
    serial: u64,
    at: usize,
) -> usize
    requires place { place + 5 ≤ length table.old }
    requires width { width_of serial ≡ Some (bytes_in (width_of serial)) }
    requires fits { at + bytes_in (width_of serial) < 2 ^ 64 }
    ensures end { result ≡ at + bytes_in (width_of serial) }
    ensures table { table.new ≡ sets table.old place (words_of (value_by manner serial at part.now)) }
{
    match serial {
        0 => put_at(table, place, empty_value(), at),
        1 => put_integer(table, place, manner.i8, i64::from(be_i8(part)), at + 1),
        2 => put_integer(table, place, manner.i16, i64::from(be_i16(part)), at + 2),
        3 => put_integer(table, place, manner.i32, i64::from(be_i24(part)), at + 3),
        4 => put_integer(table, place, manner.i32, i64::from(be_i32(part)), at + 4),
        5 => put_integer(table, place, manner.i64, load_i48(part), at + 6),
        6 => put_integer(table, place, manner.i64, be_i64(part), at + 8),
        7 => put_at(table, place, real_of(be_u64(part)), at + 8),
        8 => put_integer(table, place, manner.i8, 0, at),
        9 => put_integer(table, place, manner.i8, manner.one, at),
        _ => put_long(table, place, manner.least, serial, at),
    }
}

// The cursor behind a type of so many bytes, whose value ends at `value`.
fn moved(cursor: Cursor, length: usize, value: usize) -> Cursor
    requires { cursor.at + length < 2 ^ 64 }
    ensures { result ≡ moved_to length value cursor }
{
    Cursor {
        at: cursor.at + length,
        value,
        ..cursor
    }
}

// As many values as the table has places, of a row of so many columns. That they are all there is asked of the one caller,
// `row_in`, whose row was checked when it was found.
pub fn fill(db: &[u8], first: Cursor, columns: usize, table: &mut [i64]) -> Filled
    requires { Whole first columns db.now }
    ensures { (result ≡ filled_by (run_from (length table.old / 5) first db.now))
        × (table.new ≡ over (run_from (length table.old / 5) first db.now) table.old) }
{
    let reading = first.reading;
    let manner = manner_of(reading);
    let most = columns.min(words::places_of(table.len()));
    let mut here = first;
    for n in 0..most {
        let at = here.value;
        let serial = u64::from(db[here.at]);
        if serial < 128 {
            let end = put_value(&db[at..], table, 5 * n, manner, serial, at);
            here = moved(here, 1, end);
        } else {
            let number = type_in(&db[here.at..here.stop]);
            let end = at + width_in(number.value) as usize;
            let value = words::value_at(db, reading, number.value, at);
            let end = put_at(table, 5 * n, value, end);
            here = moved(here, number.length, end);
        }
    }
    filled_of(most, here)
}
