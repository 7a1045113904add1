// Records: the header size, the types and how the values lie, in both readings.
//
// A record reader is handed the bytes from the header size on (file: the payload; old: the rest of the page) and sees no
// page. From the file format, 2.1 "Record Format", and the Rust's `column_types` to `table_cell_payload`.
#![tactic(auto)]

ghost use Rattle.std.specs.Prelude.{◌≡◌};
ghost use Rattle.record.specs.Types.{types_of, ended, walk};
ghost use Rattle.record.specs.Record.{headless, counted, old_judged, file_judged, fitted, record_of, answer_of};

use answers::Fault;
use reading::{Reading, limit_of};
use varint::Number;

// How the values of a header's types lie in the bytes behind it: columns, and bytes left over.
#[derive(Clone, Copy, Debug, PartialEq, Eq)]
pub enum Laid {
    Ends { columns: usize, left: u64 },
    // A varint with no end stands behind the last type.
    Breaks { columns: usize, left: u64 },
    Reserved { column: usize },
    Passes { column: usize },
}

// Values that fit, in the same words.
#[derive(Clone, Copy, Debug, PartialEq, Eq)]
pub struct Fitted {
    pub columns: usize,
    pub left: u64,
}

// A record that is accepted.
#[derive(Clone, Copy, Debug, PartialEq, Eq)]
pub struct Record {
    // The header's size, and the bytes that it took.
    pub header: Number,
    // Where its values begin.
    pub values: usize,
    pub columns: usize,
    // The bytes behind the values.
    pub left: u64,
}

// Whether the types in `t` end where it does.
pub fn types_end(t: &[u8], limit: usize) -> bool
    ensures { result ≡ ended (types_of limit t.now) }
{
    let mut at: usize = 0;
    while at < t.len() {
        let Ok(found) = varint::read(&t[at..], limit) else {
            return false;
        };
        at += found.length;
    }
    true
}

// How the values of the types in `t` lie in `room` bytes.
pub fn lay(t: &[u8], limit: usize, room: u64) -> Laid
    ensures { result ≡ walk 0 room (types_of limit t.now) }
{
    let mut at: usize = 0;
    let mut col: usize = 0;
    let mut left = room;
    while at < t.len() {
        let Ok(found) = varint::read(&t[at..], limit) else {
            return Laid::Breaks { columns: col, left };
        };
        let Some(width) = serial::width_of(found.value) else {
            return Laid::Reserved { column: col };
        };
        if left < width {
            return Laid::Passes { column: col };
        }
        left -= width;
        at += found.length;
        col += 1;
    }
    Laid::Ends { columns: col, left }
}

// What the Rust makes of types and values that lie so.
fn old_judged(laid: Laid) -> Result<Fitted, Fault>
    ensures { result ≡ old_judged laid }
{
    match laid {
        Laid::Ends { columns, left } | Laid::Breaks { columns, left } => Ok(Fitted {
            columns,
            left,
        }),
        Laid::Reserved { column } => Err(Fault::TypeReserved { column }),
        Laid::Passes { column } => Err(Fault::ValueUnfit { column }),
    }
}

// What the format makes of them. That the types end is looked for only where something else is wrong: where a walk ends,
// they do.
fn file_judged(t: &[u8], laid: Laid) -> Result<Fitted, Fault>
    ensures { result ≡ file_judged (ended (types_of 9 t.now)) laid }
{
    match laid {
        Laid::Ends { columns, left: 0 } => Ok(Fitted { columns, left: 0 }),
        Laid::Ends { columns, .. } => Err(Fault::ValueUnfit { column: columns }),
        Laid::Reserved { column } if types_end(t, varint::FILE_LIMIT) => {
            Err(Fault::TypeReserved { column })
        }
        Laid::Passes { column } if types_end(t, varint::FILE_LIMIT) => {
            Err(Fault::ValueUnfit { column })
        }
        Laid::Breaks { .. } | Laid::Reserved { .. } | Laid::Passes { .. } => {
            Err(Fault::HeaderUnfit)
        }
    }
}

// Whether types and values fit in the bytes behind a header size `h`, which counts `a` bytes of its own.
pub fn fit_of(s: &[u8], reading: Reading, a: u64, h: u64) -> Result<Fitted, Fault>
    ensures { result ≡ fitted reading a h s.now }
{
    let Some(size) = h.checked_sub(a) else {
        return Err(Fault::HeaderUnfit);
    };
    let Some((types, values)) = s.split_at_checked(size as usize) else {
        return Err(Fault::HeaderUnfit);
    };
    let room = values.len() as u64;
    match reading {
        Reading::Old => old_judged(lay(types, varint::OLD_LIMIT, room)),
        Reading::File => file_judged(types, lay(types, varint::FILE_LIMIT, room)),
    }
}

// The record that `q` is (file) or that begins it (old).
pub fn record_of(q: &[u8], reading: Reading) -> Result<Record, Fault>
    ensures { result ≡ answer_of reading (record_of reading q.now) }
{
    let Ok(header) = varint::read(q, limit_of(reading)) else {
        return Err(headless_fault(reading));
    };
    let own = header.length;
    let a = counted_of(reading, own);
    let Fitted { columns, left } = fit_of(&q[own..], reading, a, header.value)?;
    Ok(Record {
        header,
        values: own + (header.value - a) as usize,
        columns,
        left,
    })
}

fn headless_fault(reading: Reading) -> Fault
    ensures { result ≡ headless reading }
{
    match reading {
        Reading::Old => Fault::CellCut,
        Reading::File => Fault::HeaderUnfit,
    }
}

// How many of its own bytes a header size counts.
fn counted_of(reading: Reading, own: usize) -> u64
    ensures { result ≡ counted reading own }
{
    match reading {
        Reading::Old => 1,
        Reading::File => own as u64,
    }
}
