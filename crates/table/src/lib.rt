// What a page call decides and writes: the head of a page, all of whose cells are accepted, and each entry.
//
// From the file format, 1.6 "B-tree Pages", and the Rust's `page_generic`. The call itself, over a table that is lent, is in
// `lent`: it opens its page once and hands the answer here.
#![tactic(auto)]

ghost use Rattle.std.specs.Prelude.{◌≡◌};
ghost use Rattle.table.specs.Head.{content_start_of, head_of};
ghost use Rattle.table.specs.Entry.{entry_by, entry_for};
ghost use Rattle.table.specs.Page.{page_in, page_for, page_of, written};

use answers::{Reason, Refusal};
use cells::Located;
use fields::be_u16;
use page::Open;
use parts::behind;
use place::Page;

// THE HEAD OF A PAGE

// A caller in C has it as it is.
#[repr(C)]
#[derive(Clone, Copy)]
pub struct Head {
    pub kind: u8,
    // 0: none.
    pub first_freeblock: u32,
    pub cells: usize,
    // By its meaning: 65,536 where the field has 0.
    pub content_start: u32,
    pub fragmented: u32,
    // 0 on leaves.
    pub rightmost: u32,
}

// A field of 0 means 65,536.
fn content_start(field: u16) -> u32
    ensures { result ≡ content_start_of field }
{
    if field == 0 { 65536 } else { u32::from(field) }
}

// From the bytes of the page's header on.
#[tactic(auto, unfolding(crate::specs::Head::head_of))]
fn head_of(header: &[u8], opened: Open) -> Head
    ensures { result ≡ head_of opened header.now }
{
    Head {
        kind: opened.kind.byte(),
        first_freeblock: u32::from(be_u16(behind(header, 1))),
        cells: opened.cells,
        content_start: content_start(be_u16(behind(header, 5))),
        fragmented: header.get(7).map_or(0, |byte| u32::from(*byte)),
        rightmost: page::rightmost_of(header, opened),
    }
}

// A PAGE WITH ALL ITS CELLS

// An opened page with all its cells, where a table of `room` entries is lent.
#[tactic(auto, unfolding(crate::specs::Page::page_in))]
fn checked_page(db: &[u8], opened: Open, room: usize) -> Result<Head, Refusal>
    ensures { result ≡ page_in opened room db.now }
{
    if !page::lies(db.len(), opened) {
        return Err(opened.page.refusal(Reason::PageAbsent));
    }
    if room < opened.cells {
        return Err(opened.page.refusal(Reason::TableTooShort));
    }
    sound::check_cells(db, opened)?;
    let page = place::bytes_of(db, opened.at, opened.size);
    Ok(head_of(behind(page, opened.from), opened))
}

// All that a page call decides of a page as it was opened: it sees no more of the table that is lent than its `room`.
#[tactic(auto, unfolding(crate::specs::Page::page_for))]
pub fn check_by(db: &[u8], opening: Result<Open, Refusal>, room: usize) -> Result<Head, Refusal>
    ensures { result ≡ page_for opening room db.now }
{
    checked_page(db, opening?, room)
}

// The head of a page, with all its cells checked, where a table of `room` entries would be lent.
pub fn check_page(db: &[u8], page: Page, room: usize) -> Result<Head, Refusal>
    ensures { result ≡ page_of page room db.now }
{
    check_by(db, page::open_page(db, page), room)
}

// How many entries a page call writes.
pub fn written_of(answer: Result<Head, Refusal>) -> usize
    ensures { result ≡ written answer }
{
    answer.map_or(0, |head| head.cells)
}

// ITS ENTRIES

// A caller in C has it as it is. Zeros are what is answered for a cell that is not there.
#[repr(C)]
#[derive(Clone, Copy, Default)]
pub struct Entry {
    pub kind: u8,
    pub pointer: u32,
    pub child: u32,
    pub payload_size: u64,
    pub row: i64,
    pub header_size: u64,
    pub columns: usize,
}

fn entry_of(opened: Open, located: Result<Located, Refusal>) -> Entry
    ensures { result ≡ entry_by opened located }
{
    match located {
        Err(_) => Entry::default(),
        Ok(found) => Entry {
            kind: opened.kind.byte(),
            pointer: found.pointer,
            child: found.cell.numbers.child,
            payload_size: found.cell.numbers.size.value,
            row: cells::row_of(found),
            header_size: found.cell.header.value,
            columns: found.cell.columns,
        },
    }
}

// The entry of cell `i` of a page as it was opened; zeros where there is no such cell.
#[tactic(auto, unfolding(crate::specs::Entry::entry_for))]
pub fn entry_by(db: &[u8], opening: Result<Open, Refusal>, i: usize) -> Entry
    ensures { result ≡ entry_for opening db.now i }
{
    match opening {
        Err(_) => Entry::default(),
        Ok(opened) => entry_of(opened, cells::cell_in(db, opened, i)),
    }
}
