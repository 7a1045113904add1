// One cell with a gather buffer lent: where its payload spills, that is gathered in the buffer and its record read there.
//
// A cell that is whole on its page is found there by `row`, and the buffer is left as it was. A spilled one is read by the
// same record reader from other bytes. The guarded reading gives it a mark: `marked`. Texts and blobs are shown as
// part of the database or as part of the buffer; an answer says which.
#![tactic(auto)]

ghost use Rattle.std.specs.Prelude.{◌≡◌, length};
ghost use Rattle.place.specs.Place.{file_page};
ghost use Rattle.cells.specs.Located.{located_in};
ghost use Rattle.spilled.specs.Lent.{spilled_in, gathered_by, lent_in, buffer_in, lent_of, buffer_of, lent_by};
ghost use Rattle.spilled.specs.Values.{from, value_of};
ghost use Rattle.spilled.specs.Steps.{on_page, spilled_with, recorded_by, value_over};
ghost use Rattle.chain.specs.Gathered.{gathered_with, gathered_in, buffer_by};

use answers::Refusal;
use cell::{Cell, Numbers};
use columns::Cursor;
use page::Open;
use place::Page;
use reading::Reading;
use row::FoundCell;
use spills::Source;
use values::file::Value;

// The cell, and the bytes that its cursor counts in.
#[derive(Clone, Copy)]
pub struct FoundIn {
    pub found: FoundCell,
    pub source: Source,
}

// The value, and the bytes that the place of a text or a blob counts in.
#[derive(Clone, Copy)]
pub struct ValueIn {
    pub value: Value,
    pub source: Source,
}

// The record of a payload that was gathered, in a cell with these numbers.
fn recorded(payload: &[u8], page: Page, i: usize, numbers: Numbers) -> Result<FoundIn, Refusal>
    ensures { result ≡ recorded_by page i numbers payload.now }
{
    let record = record::record_of(payload, Reading::File).map_err(|fault| page.refusal_in(
        i, fault,
    ))?;
    let found = FoundCell {
        page,
        cell: Cell {
            numbers,
            payload: payload.len(),
            header: record.header,
            values: record.values,
            columns: record.columns,
            row: numbers.key,
        },
        cursor: Cursor {
            reading: Reading::File,
            at: record.header.length,
            stop: record.values,
            value: record.values,
            end: payload.len(),
        },
    };
    Ok(FoundIn {
        found,
        source: Source::Buffer,
    })
}

// Cell `i` of an opened page, which has these numbers, its payload gathered in the buffer.
fn spilled_by(
    db: &[u8],
    opened: Open,
    i: usize,
    numbers: Numbers,
    buffer: &mut [u8],
) -> Result<FoundIn, Refusal>
    ensures answer { result ≡ gathered_by (spilled_with opened i numbers (length buffer.old) db.now) }
    ensures buffer { buffer.new ≡ buffer_by (gathered_with opened i numbers (length buffer.old) db.now) buffer.old }
{
    let size = chain::gather_in(db, opened, i, numbers, buffer)?;
    recorded(parts::part(buffer, 0, size), opened.page, i, numbers)
}

// Cell `i` of an opened page, its payload gathered in the buffer.
#[tactic(auto, unfolding(crate::specs::Lent::spilled_in, chain::specs::Gathered::gathered_in))]
pub fn spilled_in(db: &[u8], opened: Open, i: usize, buffer: &mut [u8]) -> Result<FoundIn, Refusal>
    ensures answer { result ≡ gathered_by (spilled_in opened i (length buffer.old) db.now) }
    ensures buffer { buffer.new ≡ buffer_by (gathered_in opened i (length buffer.old) db.now) buffer.old }
{
    let numbers = cells::numbers_in(db, opened, i)?;
    spilled_by(db, opened, i, numbers, buffer)
}

// Cell `i` of an opened page, on the page.
fn found_on(db: &[u8], opened: Open, i: usize) -> Result<FoundIn, Refusal>
    ensures { result ≡ on_page (located_in opened i db.now) }
{
    Ok(FoundIn {
        found: row::found_in(db, opened, i)?,
        source: Source::Database,
    })
}

// Cell `i` of an opened page: on the page, or in the buffer where its payload spills, as its numbers say.
pub fn found_in(db: &[u8], opened: Open, i: usize, buffer: &mut [u8]) -> Result<FoundIn, Refusal>
    ensures answer { result ≡ lent_by (lent_in opened i (length buffer.old) db.now) }
    ensures buffer { buffer.new ≡ buffer_in opened i db.now buffer.old }
{
    match cells::numbers_in(db, opened, i) {
        Ok(numbers) if spills::is_over(opened, numbers.size.value) => {
            spilled_by(db, opened, i, numbers, buffer)
        }
        Ok(_) => found_on(db, opened, i),
        Err(refusal) => Err(refusal),
    }
}

// Cell `i` of a page.
#[tactic(auto, unfolding(crate::specs::Lent::lent_of, crate::specs::Lent::buffer_of))]
pub fn found(db: &[u8], page: Page, i: usize, buffer: &mut [u8]) -> Result<FoundIn, Refusal>
    ensures answer { result ≡ lent_by (lent_of page i (length buffer.old) db.now) }
    ensures buffer { buffer.new ≡ buffer_of page i db.now buffer.old }
{
    found_in(db, page::open_page(db, page)?, i, buffer)
}

// A value that is shown, told of its bytes.
pub fn shown_from(answer: Result<Value, Refusal>, source: Source) -> Result<ValueIn, Refusal>
    ensures { result ≡ from source answer }
{
    Ok(ValueIn {
        value: answer?,
        source,
    })
}

// Column `k` of a cell that was found, in the bytes that its cursor counts in.
fn value_in(bytes: &[u8], found: FoundCell, source: Source, k: usize) -> Result<ValueIn, Refusal>
    ensures { result ≡ value_over k bytes.now found source }
{
    let column = row::column_of(bytes, Ok(found), k);
    shown_from(row_values::file::shown(bytes, column), source)
}

// Column `k` of cell `i` of the page of that number.
pub fn value(
    db: &[u8],
    number: u32,
    i: usize,
    k: usize,
    buffer: &mut [u8],
) -> Result<ValueIn, Refusal>
    ensures answer { result ≡ value_of number i k (length buffer.old) db.now }
    ensures buffer { buffer.new ≡ buffer_of (file_page number) i db.now buffer.old }
{
    let FoundIn { found, source } = found(db, place::file(number), i, buffer)?;
    match source {
        Source::Database => value_in(db, found, source, k),
        Source::Buffer => value_in(parts::part(buffer, 0, found.cell.payload), found, source, k),
    }
}
