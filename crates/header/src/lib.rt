// The database header: the checks that every call makes first, the fields, and the sizes of the pages.
//
// From the file format, 1.3 "The Database Header", and the Rust's `db_header`, whose names the fields keep.
#![tactic(auto)]

ghost use Rattle.std.specs.Prelude.{◌≡◌, ◌<◌, take, Ok, Err, IfOk, IfErr};
ghost use Rattle.answers.specs.Checks.{first};
ghost use Rattle.header.specs.Header.{field_of, page_size_of, usable, end, file_checks, checked_of, reserved_in, fields_in, header_of, sizes_of};

use answers::Flaw;
use reading::Reading;
use tables::{FIELD_AT, FIELD_WIDTH};

// The largest database that is read, in bytes.
const LIMIT: usize = 1_073_741_824;

const OPENING: [u8; 16] = *b"SQLite format 3\0";

// A caller in C has it as it is.
#[repr(C)]
#[derive(Clone, Copy)]
pub struct Header {
    // By its meaning: 65,536 where the field has 1.
    pub page_size: u32,
    pub write_version: u32,
    pub read_version: u32,
    // 0 in the old reading, which drops it.
    pub reserved_space: u32,
    pub max_payload_fraction: u32,
    pub min_payload_fraction: u32,
    pub leaf_payload_fraction: u32,
    pub file_change_counter: u32,
    pub db_size: u32,
    pub first_freelist_page_no: u32,
    pub total_freelist_pages: u32,
    pub schema_cookie: u32,
    pub schema_format_no: u32,
    pub default_page_cache_size: u32,
    pub no_largest_root_b_tree: u32,
    pub db_text_encoding: u32,
    pub user_version: u32,
    pub incremental_vacuum_mode: u32,
    pub application_id: u32,
    pub version_valid_for_no: u32,
    pub sqlite_version_number: u32,
}

// What the layers below the header know of it.
#[derive(Clone, Copy)]
pub struct Sizes {
    pub page_size: u32,
    // Where the cells of a page end: its size, or in the file reading that less the reserved space.
    pub end: u32,
    // The size in pages that the header states, and the two counters that say whether it was written with the last change.
    pub db_size: u32,
    pub file_change_counter: u32,
    pub version_valid_for_no: u32,
}

// Field `i` of the table, of the header's bytes.
fn field(head: &[u8; 100], i: usize) -> u32
    requires { i < 21 }
    ensures { result ≡ field_of i head.now }
{
    let at = usize::from(FIELD_AT[i]);
    let end = at + usize::from(FIELD_WIDTH[i]);
    fields::be_u32(&head[at..end])
}

fn page_size(head: &[u8; 100]) -> u32
    ensures { result ≡ page_size_of head.now }
{
    let size = field(head, 0);
    if size == 1 { 65536 } else { size }
}

// The bytes of a page less the reserved space; 0 where that is larger.
fn usable_size(head: &[u8; 100]) -> u32
    ensures { result ≡ usable head.now }
{
    page_size(head).saturating_sub(field(head, 3))
}

// The checks of the file reading alone.
fn file_checked(head: &[u8; 100]) -> Result<(), Flaw>
    ensures { result ≡ first (file_checks head.now) }
{
    if !matches!(
        field(head, 0),
        1 | 512 | 1024 | 2048 | 4096 | 8192 | 16384 | 32768
    ) {
        return Err(Flaw::PageSizeUnfit);
    }
    if usable_size(head) < 480 {
        return Err(Flaw::UsableTooSmall);
    }
    if 2 < field(head, 2) {
        return Err(Flaw::ReadVersionAbove);
    }
    if field(head, 4) != 64 || field(head, 5) != 32 || field(head, 6) != 32 {
        return Err(Flaw::FractionsDiffer);
    }
    Ok(())
}

// The header's bytes, of a database that passes the checks.
fn head_of(db: &[u8], reading: Reading) -> Result<&[u8; 100], Flaw>
    ensures checks { IfErr result (λ flaw. checked_of reading db.now ≡ Err flaw) }
    ensures passed { IfOk result (λ head. checked_of reading db.now ≡ Ok tt) }
    ensures head { IfOk result (λ head. head.now ≡ take 100 db.now) }
{
    if LIMIT < db.len() {
        return Err(Flaw::OverLimit);
    }
    if !db.starts_with(&OPENING) {
        return Err(Flaw::OpeningDiffers);
    }
    let Some(head) = db.first_chunk::<100>() else {
        return Err(Flaw::HeaderCut);
    };
    let encoding = field(head, 15);
    if encoding < 1 || 3 < encoding {
        return Err(Flaw::EncodingUnknown);
    }
    match reading {
        Reading::Old => Ok(head),
        Reading::File => {
            file_checked(head)?;
            Ok(head)
        }
    }
}

// The checks that every call makes first.
pub fn checked(db: &[u8], reading: Reading) -> Result<(), Flaw>
    ensures { result ≡ checked_of reading db.now }
{
    head_of(db, reading)?;
    Ok(())
}

pub fn header_of(db: &[u8], reading: Reading) -> Result<Header, Flaw>
    ensures { result ≡ header_of reading db.now }
{
    let head = head_of(db, reading)?;
    Ok(fields_in(head, reading))
}

pub fn sizes_of(db: &[u8], reading: Reading) -> Result<Sizes, Flaw>
    ensures { result ≡ sizes_of reading db.now }
{
    let head = head_of(db, reading)?;
    Ok(Sizes {
        page_size: page_size(head),
        end: end_of(head, reading),
        db_size: field(head, 8),
        file_change_counter: field(head, 7),
        version_valid_for_no: field(head, 19),
    })
}

fn end_of(head: &[u8; 100], reading: Reading) -> u32
    ensures { result ≡ end reading head.now }
{
    match reading {
        Reading::Old => page_size(head),
        Reading::File => usable_size(head),
    }
}

fn reserved_in(head: &[u8; 100], reading: Reading) -> u32
    ensures { result ≡ reserved_in reading head.now }
{
    match reading {
        Reading::Old => 0,
        Reading::File => field(head, 3),
    }
}

fn fields_in(head: &[u8; 100], reading: Reading) -> Header
    ensures { result ≡ fields_in reading head.now }
{
    Header {
        page_size: page_size(head),
        write_version: field(head, 1),
        read_version: field(head, 2),
        reserved_space: reserved_in(head, reading),
        max_payload_fraction: field(head, 4),
        min_payload_fraction: field(head, 5),
        leaf_payload_fraction: field(head, 6),
        file_change_counter: field(head, 7),
        db_size: field(head, 8),
        first_freelist_page_no: field(head, 9),
        total_freelist_pages: field(head, 10),
        schema_cookie: field(head, 11),
        schema_format_no: field(head, 12),
        default_page_cache_size: field(head, 13),
        no_largest_root_b_tree: field(head, 14),
        db_text_encoding: field(head, 15),
        user_version: field(head, 16),
        incremental_vacuum_mode: field(head, 17),
        application_id: field(head, 18),
        version_valid_for_no: field(head, 19),
        sqlite_version_number: field(head, 20),
    }
}
