// The two readings that are read from bytes: the Rust's and the file format's.
//
// What differs between them and is a number is asked of here; what differs in kind has a function of its own where it
// is read. The third reading, guarded, is the file reading of records without marks.
#![tactic(auto)]

ghost use Rattle.std.specs.Prelude.{◌≡◌};
ghost use Rattle.reading.specs.Reading.{limit};

#[derive(Clone, Copy, Debug, PartialEq, Eq)]
pub enum Reading {
    Old,
    File,
}

// How many bytes a varint takes at most.
pub fn limit_of(reading: Reading) -> usize
    ensures { result ≡ limit reading }
{
    match reading {
        Reading::Old => varint::OLD_LIMIT,
        Reading::File => varint::FILE_LIMIT,
    }
}
