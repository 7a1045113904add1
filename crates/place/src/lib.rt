// The pages of a file: where one lies, and which bytes are its.
//
// From the file format, 1.2 "Pages", and the Rust's `get_page`. A page is named by its number as a reading counts, the Rust
// from 0 and the format from 1, and is there if it lies wholly in the bytes and is one of those that the file has (`shape`).
#![tactic(auto)]

ghost use Rattle.std.specs.Prelude.{◌≡◌};
ghost use Rattle.answers.specs.declared.Refusal.TheVariants.{OnPage, InCell};
ghost use Rattle.place.specs.Place.{old_page, file_page, header_at, place_from, place_of, page_at};

use answers::{Fault, Reason, Refusal};
use reading::Reading;
use shape::Shape;

// A page by its number, as its reading counts.
#[derive(Clone, Copy)]
pub struct Page {
    pub reading: Reading,
    pub number: u32,
}

impl Page {
    // Why a call is refused on the page.
    pub fn refusal(self, reason: Reason) -> Refusal
        ensures { result ≡ OnPage self.number reason }
    {
        Refusal::OnPage {
            page: self.number,
            reason,
        }
    }

    // And in one of its cells.
    pub fn refusal_in(self, cell: usize, fault: Fault) -> Refusal
        ensures { result ≡ InCell self.number cell fault }
    {
        Refusal::InCell {
            page: self.number,
            cell,
            fault,
        }
    }
}

// Where a page lies in the bytes, and where its header stands in it.
#[derive(Clone, Copy)]
pub struct Place {
    pub at: usize,
    pub from: usize,
}

// The page of that number as the Rust counts, from 0.
pub fn old(number: u32) -> Page
    ensures { result ≡ old_page number }
{
    Page {
        reading: Reading::Old,
        number,
    }
}

// The page of that number as the file format counts, from 1.
pub fn file(number: u32) -> Page
    ensures { result ≡ file_page number }
{
    Page {
        reading: Reading::File,
        number,
    }
}

// The first page's header stands behind the database's.
fn header_at(index: u32) -> usize
    ensures { result ≡ header_at index }
{
    if index == 0 { 100 } else { 0 }
}

// The page at an index from 0. The product fits: an index and a size have 32 bits each.
fn place_from(bytes: usize, size: u32, index: u32) -> Option<Place>
    ensures { result ≡ place_from bytes size index }
{
    let size = size as usize;
    let at = index as usize * size;
    if bytes < at + size {
        return None;
    }
    Some(Place {
        at,
        from: header_at(index),
    })
}

// Where a page lies in so many bytes. The file format has no page 0, and none behind the last.
#[tactic(auto, unfolding(crate::specs::Place::place_of))]
pub fn place_of(bytes: usize, shape: Shape, page: Page) -> Option<Place>
    ensures { result ≡ place_of page bytes shape }
{
    match page.reading {
        Reading::Old => place_from(bytes, shape.page_size, page.number),
        Reading::File => {
            let index = page.number.checked_sub(1)?;
            if shape.pages < page.number as usize {
                return None;
            }
            place_from(bytes, shape.page_size, index)
        }
    }
}

// The bytes of the page that lies at `at`, as far as they are there.
pub fn bytes_of(db: &[u8], at: usize, size: usize) -> &[u8]
    ensures { result.now ≡ page_at at size db.now }
{
    parts::part(db, at, size)
}
