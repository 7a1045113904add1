// The marks of a record: why the old reading need not show what the file reading shows of it.
//
// They are looked for in one pass over the types of a record that the file reading accepts, beside how many bytes its
// other varints took. They are the first four of docs/READINGS.md; the fifth is of a payload that spills, which `marked` knows.
#![tactic(auto)]

ghost use Rattle.std.specs.Prelude.{◌≡◌};
ghost use Rattle.record.specs.Types.{types_of};
ghost use Rattle.marks.specs.Marks.{lowest_by, lowest, or_spilled};

use answers::Mark;

// The lowest mark of a record whose types are `types`, read in at most `limit` bytes each, and whose payload size, row
// number and header size took so many bytes.
pub fn mark_of(types: &[u8], limit: usize, size: usize, row: usize, header: usize) -> Option<Mark>
    ensures { result ≡ lowest size row header (types_of limit types.now) }
{
    let mut long = 5 < size || 5 < row || 5 < header;
    let mut one = false;
    let mut empty = false;
    let mut rest = types;
    while !rest.is_empty() {
        let Ok(serial) = varint::read(rest, limit) else {
            break;
        };
        long |= 5 < serial.length;
        one |= serial.value == 9;
        let no_bytes = serial.value == 12 || serial.value == 13;
        empty |= no_bytes;
        rest = &rest[serial.length..];
    }
    lowest_of(long, header, one, empty)
}

// The lowest of the marks that were found.
fn lowest_of(long: bool, header: usize, one: bool, empty: bool) -> Option<Mark>
    ensures { result ≡ lowest_by long header one empty }
{
    if long {
        Some(Mark::LongVarint)
    } else if header != 1 {
        Some(Mark::WideHeaderSize)
    } else if one {
        Some(Mark::StoredOne)
    } else if empty {
        Some(Mark::EmptyValue)
    } else {
        None
    }
}

// The lowest mark of a record whose payload spills: the fifth, where it has none of the four.
pub fn or_spilled(lowest: Option<Mark>) -> Mark
    ensures { result ≡ or_spilled lowest }
{
    lowest.unwrap_or(Mark::Spilled)
}
