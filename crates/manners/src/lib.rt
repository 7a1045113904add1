// How the readings differ in the values that they show, as numbers: one way of going through the types of a row serves both.
#![tactic(auto)]

ghost use Rattle.std.specs.Prelude.{◌≡◌};
ghost use Rattle.manners.specs.Manners.{manner_of};

use reading::Reading;

// How the readings differ in values: the widths of integers, what type 9 shows, and the first type that shows bytes.
#[derive(Clone, Copy)]
pub struct Manner {
    pub i8: u8,
    pub i16: u8,
    pub i32: u8,
    pub i64: u8,
    pub one: i64,
    pub least: u64,
}

// That of a reading.
pub fn manner_of(reading: Reading) -> Manner
    ensures { result ≡ manner_of reading }
{
    match reading {
        Reading::Old => Manner {
            i8: 8,
            i16: 16,
            i32: 32,
            i64: 64,
            one: 0,
            least: 14,
        },
        Reading::File => Manner {
            i8: 0,
            i16: 0,
            i32: 0,
            i64: 0,
            one: 1,
            least: 12,
        },
    }
}
