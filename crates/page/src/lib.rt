// A page that is opened: behind its place and its kind, which are its site, its head and its pointers.
//
// From the file format, 1.6 "B-tree Pages", and the Rust's `page_generic`. The guarded reading asks for a page's kind between the
// two steps.
#![tactic(auto)]

ghost use Rattle.std.specs.Prelude.{◌≡◌};
ghost use Rattle.page.specs.Head.{head_size};
ghost use Rattle.page.specs.Open.{open_from, open_of, rightmost_of, lies_in};

use answers::{Reason, Refusal};
use fields::{be_u16, be_u32};
use kinds::Kind;
use place::Page;
use site::Site;

// A page whose head and pointers are there too.
#[derive(Clone, Copy)]
pub struct Open {
    pub page: Page,
    pub at: usize,
    pub size: usize,
    pub end: u32,
    pub from: usize,
    pub kind: Kind,
    pub cells: usize,
}

// How many bytes stand before the pointers.
pub fn head_size(kind: Kind) -> usize
    ensures { result ≡ head_size kind }
{
    match kind {
        Kind::InteriorIndex | Kind::InteriorTable => 12,
        Kind::LeafIndex | Kind::LeafTable => 8,
    }
}

// Whether head and pointers end in time. By differences: any site may be handed over.
#[tactic(auto, unfolding(crate::specs::Open::open_from))]
pub fn open_site(db: &[u8], site: Site) -> Result<Open, Refusal>
    ensures { result ≡ open_from site db.now }
{
    let end = site.end as usize;
    let head = head_size(site.kind);
    if end < site.from || end - site.from < head {
        return Err(site.page.refusal(Reason::PointersPassEnd));
    }
    let bytes = place::bytes_of(db, site.at, site.size);
    let cells = be_u16(parts::behind(bytes, site.from + 3)) as usize;
    if (end - site.from - head) / 2 < cells {
        return Err(site.page.refusal(Reason::PointersPassEnd));
    }
    Ok(Open {
        page: site.page,
        at: site.at,
        size: site.size,
        end: site.end,
        from: site.from,
        kind: site.kind,
        cells,
    })
}

// The checks of the header, then those of the page.
#[tactic(auto, unfolding(crate::specs::Open::open_of))]
pub fn open_page(db: &[u8], page: Page) -> Result<Open, Refusal>
    ensures { result ≡ open_of page db.now }
{
    open_site(db, site::site_of(db, page)?)
}

// The last child of an interior page, from the bytes of its header on.
pub fn rightmost_of(header: &[u8], opened: Open) -> u32
    ensures { result ≡ rightmost_of opened header.now }
{
    if opened.kind.is_interior() {
        be_u32(parts::behind(header, 8))
    } else {
        0
    }
}

// Whether an opened page lies in so many bytes, and its pointers before its end. By differences: any numbers may be given.
pub fn lies(bytes: usize, opened: Open) -> bool
    ensures { result ≡ lies_in bytes opened }
{
    let end = opened.end as usize;
    let head = head_size(opened.kind);
    opened.size <= bytes
        && opened.at <= bytes - opened.size
        && end <= opened.size
        && opened.from <= end
        && head <= end - opened.from
        && opened.cells <= (end - opened.from - head) / 2
}
