// The first step of opening a page: where it lies, and its kind.
//
// From the file format, 1.6 "B-tree Pages", and the Rust's `page` and `root_page`.
#![tactic(auto)]

ghost use Rattle.std.specs.Prelude.{◌≡◌};
ghost use Rattle.site.specs.Kinds.{kind_of, kind_at};
ghost use Rattle.site.specs.Site.{site_from, site_of};

use answers::{Reason, Refusal};
use kinds::Kind;
use place::{Page, Place};
use shape::Shape;

// A page that is there, with its kind.
#[derive(Clone, Copy)]
pub struct Site {
    pub page: Page,
    // Where the page lies, and its size.
    pub at: usize,
    pub size: usize,
    // Where its cells end.
    pub end: u32,
    // Where its header stands.
    pub from: usize,
    pub kind: Kind,
}

// The kind that a byte names.
fn kind_of(byte: u8) -> Option<Kind>
    ensures { result ≡ kind_of byte }
{
    Kind::try_from(byte).ok()
}

// The kind that stands at `from`, if a byte does.
fn kind_at(page: &[u8], from: usize) -> Option<Kind>
    ensures { result ≡ kind_at from page.now }
{
    kind_of(*page.get(from)?)
}

// The page at a place, in pages of that shape.
fn sited(db: &[u8], page: Page, shape: Shape, place: Option<Place>) -> Result<Site, Refusal>
    ensures { result ≡ site_from page shape place db.now }
{
    let Place { at, from } = place.ok_or(page.refusal(Reason::PageAbsent))?;
    let size = shape.page_size as usize;
    if size < from {
        return Err(page.refusal(Reason::RootTooSmall));
    }
    let kind = kind_at(place::bytes_of(db, at, size), from).ok_or(page.refusal(Reason::KindUnfit))?;
    Ok(Site {
        page,
        at,
        size,
        end: shape.end,
        from,
        kind,
    })
}

// The checks of the header, then where the page lies, and its kind.
#[tactic(auto, unfolding(crate::specs::Site::site_of))]
pub fn site_of(db: &[u8], page: Page) -> Result<Site, Refusal>
    ensures { result ≡ site_of page db.now }
{
    let shape = shape::shape_of(db, page.reading)?;
    sited(db, page, shape, place::place_of(db.len(), shape, page))
}
