// The shortest form of a varint: whether a number that was read took no more bytes than its value takes.
//
// From the file format, 1.6 "B-tree Pages": a varint may have zeros in front, and a writer leaves them out. From 2^56 on
// a number takes nine bytes, the last of which has eight bits.
#![tactic(auto)]

ghost use Rattle.std.specs.Prelude.{◌≡◌, length};
ghost use Rattle.shortest.specs.Shortest.{encode, shortest};

use varint::Number;

// The least value that takes nine bytes.
const NINE_BYTES: u64 = 1 << 56;

// Whether the number took as few bytes as any form of its value. Most varints are one byte, which is looked at first.
pub fn is_shortest(number: Number) -> bool
    ensures { result ≡ shortest number }
{
    if number.length == 1 {
        return number.value < 128;
    }
    number.length == length_of(number.value)
}

// How many bytes the shortest form of the value has.
fn length_of(value: u64) -> usize
    ensures { result ≡ length (encode value) }
{
    if NINE_BYTES <= value {
        return 9;
    }
    let mut front = value / 128;
    let mut n: usize = 1;
    while front != 0 {
        front /= 128;
        n += 1;
    }
    n
}
