// The cells of an opened page: a pointer, the part of the page that begins there, and the cell in it.
//
// From the file format, 1.6 "B-tree Pages", and the Rust's four `_b_tree_page` functions. A cell is checked whole and by
// itself, whatever the page's other cells are like.
#![tactic(auto)]

ghost use Rattle.std.specs.Prelude.{◌≡◌, ◌≤◌, ◌<◌};
ghost use Rattle.page.specs.Head.{pointers_end};
ghost use Rattle.cell.specs.Cell.{answer_of};
ghost use Rattle.cells.specs.Pointers.{pointer_at, outside, cell_at, Fitting};
ghost use Rattle.cells.specs.Located.{row_number, located_from, located_in, located_answer, part_in};
ghost use Rattle.cells.specs.Numbered.{numbers_from, numbers_in};

use answers::{Fault, Reason, Refusal};
use cell::{Cell, Numbers};
use fields::be_u16;
use page::Open;
use reading::Reading;

// A cell with its pointer. Its page is with the caller, who handed it in.
#[derive(Clone, Copy)]
pub struct Located {
    pub pointer: u32,
    pub cell: Cell,
}

// Pointer `i` of an opened page.
fn pointer_at(page: &[u8], opened: Open, i: usize) -> u32
    requires fitting { Fitting opened page.now }
    requires below { i < opened.cells }
    ensures { result ≡ pointer_at opened i page.now }
{
    let at = opened.from + page::head_size(opened.kind) + 2 * i;
    u32::from(be_u16(&page[at..]))
}

// Whether a pointer names no place where a cell may begin.
fn is_outside(opened: Open, pointer: u32) -> bool
    requires { pointers_end opened.from opened.kind opened.cells ≤ opened.end }
    ensures { result ≡ outside opened.page.reading opened pointer }
{
    let at = pointer as usize;
    match opened.page.reading {
        Reading::Old => opened.end < pointer || at < opened.from,
        Reading::File => {
            let pointers = opened.from + page::head_size(opened.kind);
            at < pointers + 2 * opened.cells || opened.end <= pointer
        }
    }
}

// The cell that a pointer names.
#[tactic(auto, unfolding(crate::specs::Pointers::cell_at))]
fn cell_by(page: &[u8], opened: Open, pointer: u32) -> Result<Cell, Fault>
    requires { Fitting opened page.now }
    ensures { result ≡ answer_of opened.page.reading (cell_at opened pointer page.now) }
{
    if is_outside(opened, pointer) {
        return Err(Fault::PointerOutside);
    }
    let s = &page[pointer as usize..opened.end as usize];
    cell::cell_of(s, opened.page.reading, opened.kind, opened.end)
}

// Cell `i` of an opened page whose bytes are `page`.
fn located_in(page: &[u8], opened: Open, i: usize) -> Result<Located, Refusal>
    requires { Fitting opened page.now }
    ensures { result ≡ located_answer (located_from opened i page.now) }
{
    if opened.cells <= i {
        return Err(opened.page.refusal(Reason::NoSuchCell));
    }
    let pointer = pointer_at(page, opened, i);
    let cell = cell_by(page, opened, pointer).map_err(|fault| opened.page.refusal_in(i, fault))?;
    Ok(Located { pointer, cell })
}

// Cell `i` of a page that was opened, with no check of header and page made again. One that a caller makes up is answered
// too: where it does not lie in the bytes, it is absent.
#[tactic(auto, unfolding(crate::specs::Located::located_in))]
pub fn cell_in(db: &[u8], opened: Open, i: usize) -> Result<Located, Refusal>
    ensures { result ≡ located_answer (located_in opened i db.now) }
{
    if !page::lies(db.len(), opened) {
        return Err(opened.page.refusal(Reason::PageAbsent));
    }
    located_in(place::bytes_of(db, opened.at, opened.size), opened, i)
}

// The part of an opened page that begins at the pointer of cell `i`; no bytes where there is no such cell.
pub fn part_in(db: &[u8], opened: Open, i: usize) -> &[u8]
    ensures { result.now ≡ part_in opened i db.now }
{
    if !page::lies(db.len(), opened) || opened.cells <= i {
        return &[];
    }
    let bytes = place::bytes_of(db, opened.at, opened.size);
    let pointer = pointer_at(bytes, opened, i);
    bytes
        .get(pointer as usize..opened.end as usize)
        .unwrap_or(&[])
}

// The numbers alone of cell `i` of an opened page whose bytes are `page`.
#[tactic(auto, unfolding(crate::specs::Numbered::numbers_at))]
fn numbers_from(page: &[u8], opened: Open, i: usize) -> Result<Numbers, Refusal>
    requires { Fitting opened page.now }
    ensures { result ≡ numbers_from opened i page.now }
{
    if opened.cells <= i {
        return Err(opened.page.refusal(Reason::NoSuchCell));
    }
    let pointer = pointer_at(page, opened, i);
    if is_outside(opened, pointer) {
        return Err(opened.page.refusal_in(i, Fault::PointerOutside));
    }
    let s = &page[pointer as usize..opened.end as usize];
    let Ok(numbers) = cell::numbers_of(s, opened.page.reading, opened.kind) else {
        return Err(opened.page.refusal_in(i, Fault::CellCut));
    };
    Ok(numbers)
}

// The numbers alone of cell `i` of a page that was opened, or that a caller made up: what is behind them is not looked at.
#[tactic(auto, unfolding(crate::specs::Numbered::numbers_in))]
pub fn numbers_in(db: &[u8], opened: Open, i: usize) -> Result<Numbers, Refusal>
    ensures { result ≡ numbers_in opened i db.now }
{
    if !page::lies(db.len(), opened) {
        return Err(opened.page.refusal(Reason::PageAbsent));
    }
    numbers_from(place::bytes_of(db, opened.at, opened.size), opened, i)
}

// The row number or key of a located cell: 64 bits of two's complement.
pub fn row_of(located: Located) -> i64
    ensures { result ≡ row_number located.cell.row.value }
{
    fields::signed_of(located.cell.row.value)
}
