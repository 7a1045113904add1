// How the values of usual types lie, by a short way: what `record::lay` and `marks::mark_of` make of the same types, or nothing.
//
// Types of one byte each are gone along in a loop that looks at each of them once, and only for whether all is well; others by
// the plain forms. From the file format, 2.1 "Record Format", as `record` and `marks` have it.
#![tactic(auto)]

ghost use Rattle.std.specs.Prelude.{◌≡◌, ◌≤◌, get_or};
ghost use Rattle.laws.specs.Pick.{pick};
ghost use Rattle.tables.specs.Tables.{widths};
ghost use Rattle.reading.specs.Reading.{limit};
ghost use Rattle.record.specs.Types.{types_of};
ghost use Rattle.layout.specs.Lying.{Wide, Lying, LyingAs};

use reading::Reading;
use record::Laid;

// How many columns there are, and how many bytes their values leave over.
#[derive(Clone, Copy)]
pub struct Layout {
    pub columns: usize,
    pub left: u64,
}

// The type of fixed width that is not usual: in the guarded reading a stored 1, which is a mark.
fn barred_of(guarded: bool) -> u64
    ensures { result ≡ pick guarded 9 10 }
{
    if guarded { 9 } else { 10 }
}

// The first type of a text or a blob that is usual: in the guarded reading one with bytes, since none is a mark.
fn least_of(guarded: bool) -> u64
    ensures { result ≡ pick guarded 14 12 }
{
    if guarded { 14 } else { 12 }
}

// The table of widths as a `match`, which is read from memory: a constant array would be laid on the stack at each type.
fn short_width(serial: u64) -> u64
    ensures { result ≡ get_or widths serial 0 }
{
    match serial {
        0 => 0,
        1 => 1,
        2 => 2,
        3 => 3,
        4 => 4,
        5 => 6,
        6 => 8,
        7 => 8,
        8 => 0,
        9 => 0,
        _ => 0,
    }
}

// How many bytes the value of a type of one byte takes.
fn width_of(serial: u64, barred: u64, least: u64) -> Option<u64>
    requires low { barred ≤ 10 }
    requires high { 12 ≤ least }
    ensures { Wide serial barred least result }
{
    if serial < 10 {
        if serial == barred {
            return None;
        }
        return Some(short_width(serial));
    }
    if serial < least || 128 <= serial {
        return None;
    }
    Some((serial - 12) / 2)
}

// How the values of the types `t` lie in `room` bytes, where each type is one byte.
fn short_layout(t: &[u8], guarded: bool, room: u64) -> Option<Layout>
    ensures { LyingAs guarded room t.now result }
{
    let barred = barred_of(guarded);
    let least = least_of(guarded);
    let mut left = room;
    for &byte in t {
        left = left.checked_sub(width_of(u64::from(byte), barred, least)?)?;
    }
    Some(Layout {
        columns: t.len(),
        left,
    })
}

// The same, whatever the types are.
fn long_layout(t: &[u8], reading: Reading, guarded: bool, room: u64) -> Option<Layout>
    ensures { Lying guarded room (types_of (limit reading) t.now) result }
{
    let limit = reading::limit_of(reading);
    if guarded && marks::mark_of(t, limit, 1, 1, 1).is_some() {
        return None;
    }
    let Laid::Ends { columns, left } = record::lay(t, limit, room) else {
        return None;
    };
    Some(Layout { columns, left })
}

pub fn layout_of(t: &[u8], reading: Reading, guarded: bool, room: u64) -> Option<Layout>
    ensures { Lying guarded room (types_of (limit reading) t.now) result }
{
    match short_layout(t, guarded, room) {
        None => long_layout(t, reading, guarded, room),
        layout => layout,
    }
}
