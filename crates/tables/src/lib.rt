// The constant tables of the file format, side by side. Code reads them by an index; the definitions read the same lists
// (specs/Tables.antt).
#![tactic(auto)]

ghost use Rattle.std.specs.Prelude.{◌≡◌};

// 2.1 "Record Format": the widths of serial types 0 to 9.
pub const WIDTHS: [u8; 10] = [0, 1, 2, 3, 4, 6, 8, 8, 0, 0];

// 1.3 "The Database Header": where each field stands, in the order of the file ..
pub const FIELD_AT: [u8; 21] = [
    16, // page_size
    18, // write_version
    19, // read_version
    20, // reserved_space
    21, // max_payload_fraction
    22, // min_payload_fraction
    23, // leaf_payload_fraction
    24, // file_change_counter
    28, // db_size
    32, // first_freelist_page_no
    36, // total_freelist_pages
    40, // schema_cookie
    44, // schema_format_no
    48, // default_page_cache_size
    52, // no_largest_root_b_tree
    56, // db_text_encoding
    60, // user_version
    64, // incremental_vacuum_mode
    68, // application_id
    92, // version_valid_for_no
    96, // sqlite_version_number
];

// .. and how many bytes it has: the page size two, the next six one each, all others four.
pub const FIELD_WIDTH: [u8; 21] = [
    2, 1, 1, 1, 1, 1, 1, 4, 4, 4, 4, 4, 4, 4, 4, 4, 4, 4, 4, 4, 4,
];

// An entry of a table, as a size. It has a function of its own, since a parameter is known to fit its type.
pub fn wide(entry: u8) -> usize
    ensures { result ≡ entry }
{
    usize::from(entry)
}
