// What is answered of the database and its pages, by numbers: the header, the rows of a table, the head of a page, and a page that is
// opened, there and back.
#![tactic(auto)]

ghost use Rattle.std.specs.Prelude.{◌≡◌};
ghost use Rattle.pages.specs.Pages.{no_fields, header_by, pages_by, listed_by, no_head, head_by, unopened, opened_of, opening_by, open_by};

use answers::{Flaw, Refusal};
use page::Open;
use place::Page;
use reading::Reading;
use shape::Shape;
use table::Head;
use turns::refusals::{no_refusal, refused_by};
use turns::types::{Header, Listed, Opened, Opening, PageHead, Pages};

// THE HEADER, AND HOW MANY PAGES

fn no_fields() -> header::Header
    ensures { result ≡ no_fields }
{
    header::Header {
        page_size: 0,
        write_version: 0,
        read_version: 0,
        reserved_space: 0,
        max_payload_fraction: 0,
        min_payload_fraction: 0,
        leaf_payload_fraction: 0,
        file_change_counter: 0,
        db_size: 0,
        first_freelist_page_no: 0,
        total_freelist_pages: 0,
        schema_cookie: 0,
        schema_format_no: 0,
        default_page_cache_size: 0,
        no_largest_root_b_tree: 0,
        db_text_encoding: 0,
        user_version: 0,
        incremental_vacuum_mode: 0,
        application_id: 0,
        version_valid_for_no: 0,
        sqlite_version_number: 0,
    }
}

pub fn header_by(answer: Result<header::Header, Flaw>) -> Header
    ensures { result ≡ header_by answer }
{
    match answer {
        Err(flaw) => Header {
            refused: refused_by(Refusal::from(flaw)),
            fields: no_fields(),
        },
        Ok(fields) => Header {
            refused: no_refusal(),
            fields,
        },
    }
}

pub fn pages_by(answer: Result<Shape, Flaw>) -> Pages
    ensures { result ≡ pages_by answer }
{
    match answer {
        Err(flaw) => Pages {
            refused: refused_by(Refusal::from(flaw)),
            count: 0,
            present: 0,
        },
        Ok(shape) => Pages {
            refused: no_refusal(),
            count: shape.pages,
            present: shape.present,
        },
    }
}

pub fn listed_by(answer: Result<usize, Refusal>) -> Listed
    ensures { result ≡ listed_by answer }
{
    match answer {
        Err(refusal) => Listed {
            refused: refused_by(refusal),
            count: 0,
        },
        Ok(count) => Listed {
            refused: no_refusal(),
            count,
        },
    }
}

// THE HEAD OF A PAGE

fn no_head() -> Head
    ensures { result ≡ no_head }
{
    Head {
        kind: 0,
        first_freeblock: 0,
        cells: 0,
        content_start: 0,
        fragmented: 0,
        rightmost: 0,
    }
}

pub fn head_by(answer: Result<Head, Refusal>) -> PageHead
    ensures { result ≡ head_by answer }
{
    match answer {
        Err(refusal) => PageHead {
            refused: refused_by(refusal),
            head: no_head(),
        },
        Ok(head) => PageHead {
            refused: no_refusal(),
            head,
        },
    }
}

// OPENED PAGES

// What stands in place of a page that is refused.
fn no_page() -> Opened
    ensures { result ≡ unopened }
{
    Opened {
        reading: 0,
        kind: 0,
        end: 0,
        number: 0,
        at: 0,
        size: 0,
        from: 0,
        cells: 0,
    }
}

fn opened_of(reading: u8, opened: Open) -> Opened
    ensures { result ≡ opened_of reading opened }
{
    Opened {
        reading,
        kind: opened.kind.byte(),
        end: opened.end,
        number: opened.page.number,
        at: opened.at,
        size: opened.size,
        from: opened.from,
        cells: opened.cells,
    }
}

// A page as it was opened in the reading of that number.
pub fn opening_by(reading: u8, answer: Result<Open, Refusal>) -> Opening
    ensures { result ≡ opening_by reading answer }
{
    match answer {
        Err(refusal) => Opening {
            refused: refused_by(refusal),
            opened: no_page(),
        },
        Ok(opened) => Opening {
            refused: no_refusal(),
            opened: opened_of(reading, opened),
        },
    }
}

// And back.
pub fn open_by(opened: Opened) -> Open
    ensures { result ≡ open_by opened }
{
    let reading: Reading = asked::reading_of(opened.reading);
    Open {
        page: Page {
            reading,
            number: opened.number,
        },
        at: opened.at,
        size: opened.size,
        end: opened.end,
        from: opened.from,
        kind: asked::kind_of(opened.kind),
        cells: opened.cells,
    }
}
