// Along the columns of a record: a cursor, by value, that gives one column's type and place after another.
//
// A cursor says where the next type and its value stand in the bytes that it is handed. One that is opened on a checked cell
// comes to each of its columns; any other is answered too, and no step reads or shows what lies outside the bytes. From the
// file format, 2.1 "Record Format", and the Rust's `column_values`.
#![tactic(auto)]

ghost use Rattle.std.specs.Prelude.{◌≡◌, ◌+◌, ◌-◌, ◌≤◌, take, drop};
ghost use Rattle.columns.specs.Columns.{end_in, passed, step_of, slot_of};

use reading::Reading;
use varint::Number;

#[derive(Clone, Copy)]
pub struct Cursor {
    pub reading: Reading,
    // Where the next type stands, and where the types end.
    pub at: usize,
    pub stop: usize,
    // Where its value stands, and where the values end.
    pub value: usize,
    pub end: usize,
}

// The column's serial type, where its value stands, and the cursor behind it.
#[derive(Clone, Copy)]
pub struct Step {
    pub serial: u64,
    pub at: usize,
    pub next: Cursor,
}

// The column's serial type, and where its value stands.
#[derive(Clone, Copy)]
pub struct Slot {
    pub serial: u64,
    pub at: usize,
}

// The bytes from `at` to `stop`, as far as there are any.
fn between(s: &[u8], at: usize, stop: usize) -> &[u8]
    ensures { result.now ≡ take (stop - at) (drop at s.now) }
{
    s.get(at..stop.min(s.len())).unwrap_or(&[])
}

impl Cursor {
    // Past a column of type `serial`, if its value of `width` bytes ends before the values and the bytes do.
    fn pass(self, s: &[u8], serial: Number, width: u64) -> Option<Step>
        requires { self.at + serial.length ≤ self.stop }
        ensures { result ≡ passed (end_in self s.now) self serial width }
    {
        if (self.end.saturating_sub(self.value) as u64) < width
            || (s.len().saturating_sub(self.value) as u64) < width
        {
            return None;
        }
        Some(Step {
            serial: serial.value,
            at: self.value,
            next: Cursor {
                reading: self.reading,
                at: self.at + serial.length,
                stop: self.stop,
                value: self.value + width as usize,
                end: self.end,
            },
        })
    }

    // The column at the cursor, and the cursor behind it.
    pub fn step(self, s: &[u8]) -> Option<Step>
        ensures { result ≡ step_of self s.now }
    {
        let types = between(s, self.at, self.stop);
        let Ok(serial) = varint::read(types, reading::limit_of(self.reading)) else {
            return None;
        };
        let width = serial::width_of(serial.value)?;
        self.pass(s, serial, width)
    }

    // Column `k`, counted from the cursor.
    pub fn find(self, s: &[u8], k: usize) -> Option<Slot>
        ensures { result ≡ slot_of k self s.now }
    {
        let mut here = self;
        for _passed in 0..k {
            here = here.step(s)?.next;
        }
        let Step { serial, at, .. } = here.step(s)?;
        Some(Slot { serial, at })
    }
}
