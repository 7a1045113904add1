// What a caller asks for and hands over by numbers: a reading, a page, a half of a table, a kind of page.
//
// They are functions and no `From<u8>`: the types are those of other crates, so an implementation would have to stand there, beside
// what knows nothing of C's numbers.
#![tactic(auto)]

ghost use Rattle.std.specs.Prelude.{◌≡◌, eqb};
ghost use Rattle.asked.specs.Asked.{number_of, reading_by, page_by, share_by, kind_by};

use halves::Share;
use kinds::Kind;
use place::Page;
use reading::Reading;

// READINGS

fn number_of(reading: Reading) -> u8
    ensures { result ≡ number_of reading }
{
    match reading {
        Reading::Old => 0,
        Reading::File => 1,
    }
}

// Whether a number names the guarded reading, where a page is opened.
pub fn is_guarded(number: u8) -> bool
    ensures { result ≡ eqb number 2 }
{
    number == 2
}

// Every number names a reading, so that no call has to refuse one.
pub fn reading_of(number: u8) -> Reading
    ensures { result ≡ reading_by number }
{
    match number {
        0 => Reading::Old,
        _ => Reading::File,
    }
}

// The number that an opened page tells of its reading.
pub fn told(number: u8) -> u8
    ensures { result ≡ number_of (reading_by number) }
{
    number_of(reading_of(number))
}

// A page by the number of its reading and its own.
pub fn page_of(reading: u8, number: u32) -> Page
    ensures { result ≡ page_by reading number }
{
    Page {
        reading: reading_of(reading),
        number,
    }
}

// HALVES OF A TABLE

// Every number names a half, so that no call has to refuse one.
pub fn share_of(half: u8) -> Share
    ensures { result ≡ share_by half }
{
    match half {
        0 => Share::First,
        _ => Share::Second,
    }
}

// KINDS

// A page that is handed back has the kind that its byte names.
pub fn kind_of(byte: u8) -> Kind
    ensures { result ≡ kind_by byte }
{
    match byte {
        2 => Kind::InteriorIndex,
        5 => Kind::InteriorTable,
        10 => Kind::LeafIndex,
        _ => Kind::LeafTable,
    }
}
