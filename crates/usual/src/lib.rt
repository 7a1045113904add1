// Usual rows, by a short way: what `row::found_in` and `guarded::found_in` find, at a fraction of their cost.
//
// A row is usual if it is a cell of a table leaf whose numbers take at most five bytes each and whose header size takes one,
// as those of a gauge do. One pass looks at each of its types once, and only for whether all is well. Where it is not, or
// the row is not usual, the plain form answers: every answer and every refusal is the plain form's, which is the definition
// here. From the file format, 1.6 "B-tree Pages" and 2.1 "Record Format", as `cells`, `cell` and `record` have them.
#![tactic(auto)]

ghost use Rattle.std.specs.Prelude.{◌≡◌, true, ◌<◌, length};
ghost use Rattle.kinds.specs.declared.Kind.TheVariants.{LeafTable};
ghost use Rattle.page.specs.Open.{lies_in};
ghost use Rattle.usual.specs.Usual.{row_in};
ghost use Rattle.usual.specs.Short.{Headed, Begun, Says};

use answers::Refusal;
use columns::Cursor;
use kinds::Kind;
use layout::{Layout, layout_of};
use page::Open;
use reading::Reading;

// A row: its number, its column count, and the cursor before its first column.
#[derive(Clone, Copy)]
pub struct Row {
    pub number: u64,
    pub columns: usize,
    pub cursor: Cursor,
}

// WHAT THE SHORT WAY SAYS of a stage; nothing, where it is not usual or not well

// The header size of a record, and its columns.
#[derive(Clone, Copy)]
struct Header {
    size: usize,
    columns: usize,
}

// A row in its part of the page: where its payload begins, and how many bytes it takes.
#[derive(Clone, Copy)]
struct Span {
    number: u64,
    columns: usize,
    from: usize,
    payload: usize,
    header: usize,
}

// ROWS

// The header size of the record in `q`.
#[tactic(auto, using(crate::proofs::Records::head_old, crate::proofs::Records::head_filled))]
fn header_of(q: &[u8], reading: Reading, guarded: bool) -> Option<Header>
    ensures { Headed guarded reading q.now result }
{
    let size = usize::from(*q.first()?);
    if size == 0 || 128 <= size || q.len() < size {
        return None;
    }
    let room = (q.len() - size) as u64;
    let Layout { columns, left } = layout_of(&q[1..size], reading, guarded, room)?;
    match reading {
        Reading::File if left != 0 => None,
        Reading::Old | Reading::File => Some(Header { size, columns }),
    }
}

// The row that begins `s`, on a page of `usable` bytes.
fn row_of(s: &[u8], reading: Reading, guarded: bool, usable: u32) -> Option<Span>
    ensures { Begun guarded reading usable s.now result }
{
    let size = varint::read(s, varint::OLD_LIMIT).ok()?;
    let key = varint::read(&s[size.length..], varint::OLD_LIMIT).ok()?;
    let from = size.length + key.length;
    let rest = &s[from..];
    let most = Kind::LeafTable.most_whole(usable);
    let payload = cell::payload_of(rest, reading, most, size.value).ok()?;
    let header = header_of(&rest[..payload], reading, guarded)?;
    Some(Span {
        number: key.value,
        columns: header.columns,
        from,
        payload,
        header: header.size,
    })
}

// The row of cell `i` of a table leaf that lies in the bytes.
fn found_on(db: &[u8], opened: Open, guarded: bool, i: usize) -> Option<Row>
    requires leaf { opened.kind ≡ LeafTable }
    requires lies { lies_in (length db.now) opened ≡ true }
    requires below { i < opened.cells }
    ensures { Says (row_in guarded opened i db.now) result }
{
    let start = opened.at;
    let behind = start + opened.size;
    let page = &db[start..behind];
    let end = opened.end as usize;
    let first = opened.from + 8;
    let at = first + 2 * i;
    let pointer = usize::from(fields::be_u16(&page[at..]));
    if pointer < first + 2 * opened.cells || end <= pointer {
        return None;
    }
    let span = row_of(
        &page[pointer..end],
        opened.page.reading,
        guarded,
        opened.end,
    )?;
    let base = start + pointer + span.from;
    let values = base + span.header;
    Some(Row {
        number: span.number,
        columns: span.columns,
        cursor: Cursor {
            reading: opened.page.reading,
            at: base + 1,
            stop: values,
            value: values,
            end: base + span.payload,
        },
    })
}

// The row of cell `i` of a page that was opened.
fn found_in(db: &[u8], opened: Open, guarded: bool, i: usize) -> Option<Row>
    ensures { Says (row_in guarded opened i db.now) result }
{
    let Kind::LeafTable = opened.kind else {
        return None;
    };
    if opened.cells <= i || !page::lies(db.len(), opened) {
        return None;
    }
    found_on(db, opened, guarded, i)
}

// THE PLAIN FORM, and which of the two answers

// The row of cell `i` of a page that was opened, in the guarded reading or in that of the page. Out of line, since few rows come
// here: the short way has the registers to itself.
#[cold]
#[tactic(auto, unfolding(crate::specs::Usual::row_in))]
fn plain_in(db: &[u8], opened: Open, guarded: bool, i: usize) -> Result<Row, Refusal>
    ensures { result ≡ row_in guarded opened i db.now }
{
    let found = if guarded {
        guarded::found_in(db, opened, i)?
    } else {
        row::found_in(db, opened, i)?
    };
    Ok(Row {
        number: found.cell.row.value,
        columns: found.cell.columns,
        cursor: found.cursor,
    })
}

// The same, by the short way where it says something.
pub fn row_in(db: &[u8], opened: Open, guarded: bool, i: usize) -> Result<Row, Refusal>
    ensures { result ≡ row_in guarded opened i db.now }
{
    match found_in(db, opened, guarded, i) {
        Some(row) => Ok(row),
        None => plain_in(db, opened, guarded, i),
    }
}
