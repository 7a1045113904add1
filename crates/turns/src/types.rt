// What the calls take and answer: numbers in structs that C and Rust lay out alike. What does not apply is 0.
use table::Head;

// A refusal by its numbers; number 0: nothing is refused.
#[repr(C)]
#[derive(Clone, Copy)]
pub struct Refused {
    pub number: u8,
    pub mark: u8,
    pub page: u32,
    pub cell: usize,
    pub column: usize,
}

// THE DATABASE AND ITS PAGES

#[repr(C)]
#[derive(Clone, Copy)]
pub struct Header {
    pub refused: Refused,
    pub fields: header::Header,
}

// How many pages there are, and how many of them are wholly in the bytes.
#[repr(C)]
#[derive(Clone, Copy)]
pub struct Pages {
    pub refused: Refused,
    pub count: usize,
    pub present: usize,
}

// How many rows a table has.
#[repr(C)]
#[derive(Clone, Copy)]
pub struct Listed {
    pub refused: Refused,
    pub count: usize,
}

// The head of a page whose cells are all accepted.
#[repr(C)]
#[derive(Clone, Copy)]
pub struct PageHead {
    pub refused: Refused,
    pub head: Head,
}

// A page that is opened: `page::Open`, its reading and its kind by number.
#[repr(C)]
#[derive(Clone, Copy)]
pub struct Opened {
    // 0: old, 2: guarded; any other number: file.
    pub reading: u8,
    // The format's byte; any other number than 2, 5 and 10 is taken for 13, a table leaf.
    pub kind: u8,
    pub end: u32,
    // The page's, as its reading counts.
    pub number: u32,
    pub at: usize,
    pub size: usize,
    pub from: usize,
    pub cells: usize,
}

#[repr(C)]
#[derive(Clone, Copy)]
pub struct Opening {
    pub refused: Refused,
    pub opened: Opened,
}

// ROWS AND VALUES

// A cursor along a row: `columns::Cursor` of the reading whose call it is handed to.
#[repr(C)]
#[derive(Clone, Copy)]
pub struct Along {
    pub at: usize,
    pub stop: usize,
    pub value: usize,
    pub end: usize,
}

// A cell: its row number, its column count and the cursor before its first column.
#[repr(C)]
#[derive(Clone, Copy)]
pub struct Cell {
    pub refused: Refused,
    pub row: i64,
    pub columns: usize,
    pub along: Along,
    // 1 where every varint that was taken from it is in its shortest form.
    pub shortest: u8,
}

#[repr(C)]
#[derive(Clone, Copy)]
pub struct Value {
    // 0: null, 1: an integer, 2: a real, 3: a text, 4: a blob.
    pub kind: u8,
    // In the old reading, the bits of an integer's type.
    pub width: u8,
    pub integer: i64,
    // The bits of a real.
    pub bits: u64,
    // Where the bytes of a text or a blob stand, and how many there are.
    pub at: usize,
    pub len: usize,
}

// The value of a column, or why there is none.
#[repr(C)]
#[derive(Clone, Copy)]
pub struct Shown {
    pub refused: Refused,
    pub value: Value,
}

// How many answers a list was filled with.
#[repr(C)]
#[derive(Clone, Copy)]
pub struct Screened {
    pub refused: Refused,
    pub count: usize,
}

// How many values a table was filled with, and the cursor behind the last.
#[repr(C)]
#[derive(Clone, Copy)]
pub struct Filled {
    pub count: usize,
    pub along: Along,
}

// A row: its number, its column count, how many of its values the table was filled with, and the cursor behind the last.
#[repr(C)]
#[derive(Clone, Copy)]
pub struct Row {
    pub refused: Refused,
    pub number: i64,
    pub columns: usize,
    pub count: usize,
    pub along: Along,
}

// WITH A GATHER BUFFER LENT

// A value, and the bytes that the place of a text or a blob counts in: 0 is the database's, 1 the buffer's.
#[repr(C)]
#[derive(Clone, Copy)]
pub struct LentValue {
    pub refused: Refused,
    pub value: Value,
    pub source: u8,
}

// A row, and the bytes that its cursor and the places of its values count in.
#[repr(C)]
#[derive(Clone, Copy)]
pub struct LentRow {
    pub row: Row,
    pub source: u8,
}
