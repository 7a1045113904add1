// What the pages of a file have in common: their size, where their cells end, how many there are, and how many of them are in the
// bytes. Nothing else counts pages.
//
// From the file format, 1.3.7 "In-header database size". In the file reading a file may have fewer pages than its bytes hold, or
// more: its header states how many, and old pages behind the last are none of it.
#![tactic(auto)]

ghost use Rattle.std.specs.Prelude.{◌≡◌};
ghost use Rattle.shape.specs.Shape.{whole_pages, stated, count_of, shape_of};

use answers::Flaw;
use header::Sizes;
use reading::Reading;

// What the pages of a file have in common.
#[derive(Clone, Copy, Debug, PartialEq, Eq)]
pub struct Shape {
    pub page_size: u32,
    // Where the cells of a page end: its size, or in the file reading that less the reserved space.
    pub end: u32,
    // How many pages there are.
    pub pages: usize,
    // How many of them are wholly in the bytes.
    pub present: usize,
}

// As many as fit in the bytes; of pages with no bytes none is counted.
fn whole_pages(bytes: usize, size: u32) -> usize
    ensures { result ≡ whole_pages bytes size }
{
    bytes.checked_div(size as usize).unwrap_or(0)
}

// Whether the size that the header states was written with the last change.
fn is_stated(sizes: Sizes) -> bool
    ensures { result ≡ stated sizes }
{
    sizes.db_size != 0 && sizes.file_change_counter == sizes.version_valid_for_no
}

// How many pages there are, of which so many fit in the bytes.
fn count_of(reading: Reading, whole: usize, sizes: Sizes) -> usize
    ensures { result ≡ count_of reading whole sizes }
{
    match reading {
        Reading::Old => whole,
        Reading::File => {
            if is_stated(sizes) {
                sizes.db_size as usize
            } else {
                whole
            }
        }
    }
}

// The checks of the header, and then the shape of the pages.
pub fn shape_of(db: &[u8], reading: Reading) -> Result<Shape, Flaw>
    ensures { result ≡ shape_of reading db.now }
{
    let sizes = header::sizes_of(db, reading)?;
    let whole = whole_pages(db.len(), sizes.page_size);
    let pages = count_of(reading, whole, sizes);
    Ok(Shape {
        page_size: sizes.page_size,
        end: sizes.end,
        pages,
        present: pages.min(whole),
    })
}
