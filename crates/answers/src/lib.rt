// What calls answer where they show nothing: refusals, named by their meaning, with the numbers that a caller is given.
//
// A refusal knows its place. A `Flaw` is of the database as a whole, a `Reason` is told of a page, and what lies below a cell
// answers a `Fault`, which knows its column and neither cell nor page; the opened page, which knows its number, puts them
// together. docs/READINGS.md has the table of numbers.
#![tactic(auto)]

ghost use Rattle.std.specs.Prelude.{◌≡◌};
ghost use Rattle.answers.specs.declared.Refusal.TheVariants.{OfDatabase};
ghost use Rattle.answers.specs.Numbers.{row, mark_number, flaw_number, reason_number, fault_row, numbers_of};

// Pages are counted as the call that is refused counts them.
#[derive(Clone, Copy, Debug, PartialEq, Eq)]
pub enum Refusal {
    OfDatabase(Flaw),
    OnPage {
        page: u32,
        reason: Reason,
    },
    InCell {
        page: u32,
        cell: usize,
        fault: Fault,
    },
}

// Why nothing of a database is read.
#[derive(Clone, Copy, Debug, PartialEq, Eq)]
pub enum Flaw {
    OverLimit,
    OpeningDiffers,
    HeaderCut,
    EncodingUnknown,
    PageSizeUnfit,
    UsableTooSmall,
    ReadVersionAbove,
    FractionsDiffer,
}

// Why a call is refused on a page, before it comes to a cell, or because what it asks for is not there.
#[derive(Clone, Copy, Debug, PartialEq, Eq)]
pub enum Reason {
    PageAbsent,
    RootTooSmall,
    KindUnfit,
    PointersPassEnd,
    TableTooShort,
    NoSuchCell,
    NoSuchColumn,
    // Of a walk through a table: a page of an index.
    IndexPage,
    // Over 20 pages below one another.
    TooDeep,
    // One more page is due than the file has.
    VisitsUsedUp,
}

// What is wrong with a cell.
#[derive(Clone, Copy, Debug, PartialEq, Eq)]
pub enum Fault {
    PointerOutside,
    CellCut,
    PayloadSpills,
    // A gather buffer is shorter than the payload.
    BufferTooShort,
    // An overflow chain leaves the file, ends early or goes on.
    ChainUnfit,
    HeaderUnfit,
    TypeReserved { column: usize },
    // The value passes the end; with the column count, bytes are left over behind the last value.
    ValueUnfit { column: usize },
    ClosingCut,
    Marked(Mark),
    // Of a walk through a table: a row number or a key that does not rise, or is not between those around it.
    OutOfOrder,
}

// Why the old reading need not show what the file reading shows of a record.
#[derive(Clone, Copy, Debug, PartialEq, Eq)]
pub enum Mark {
    // A varint over five bytes.
    LongVarint,
    // A header size that is not in one byte.
    WideHeaderSize,
    // A type 9.
    StoredOne,
    // A text or a blob with no bytes.
    EmptyValue,
    // A payload that spills.
    Spilled,
}

// A refusal as it is printed and exported. What does not apply is 0.
#[derive(Clone, Copy, Debug, PartialEq, Eq)]
pub struct Numbers {
    pub number: u8,
    pub page: u32,
    pub cell: usize,
    pub column: usize,
    pub mark: u8,
}

// A flaw refuses every call.
impl From<Flaw> for Refusal {
    ghost from_gives = { λ flaw refusal. refusal ≡ OfDatabase flaw };

    fn from(flaw: Flaw) -> Refusal {
        Refusal::OfDatabase(flaw)
    }
}

pub fn numbers_of(refusal: Refusal) -> Numbers
    ensures { result ≡ numbers_of refusal }
{
    match refusal {
        Refusal::OfDatabase(flaw) => row_of(flaw.number(), 0, 0, 0, 0),
        Refusal::OnPage { page, reason } => row_of(reason.number(), page, 0, 0, 0),
        Refusal::InCell { page, cell, fault } => fault.row(page, cell),
    }
}

// A row of the table.
fn row_of(number: u8, page: u32, cell: usize, column: usize, mark: u8) -> Numbers
    ensures { result ≡ row number page cell column mark }
{
    Numbers {
        number,
        page,
        cell,
        column,
        mark,
    }
}

impl Flaw {
    fn number(self) -> u8
        ensures { result ≡ flaw_number self }
    {
        match self {
            Flaw::OverLimit => 22,
            Flaw::OpeningDiffers => 1,
            Flaw::HeaderCut => 2,
            Flaw::EncodingUnknown => 3,
            Flaw::PageSizeUnfit => 4,
            Flaw::UsableTooSmall => 5,
            Flaw::ReadVersionAbove => 6,
            Flaw::FractionsDiffer => 7,
        }
    }
}

impl Reason {
    fn number(self) -> u8
        ensures { result ≡ reason_number self }
    {
        match self {
            Reason::PageAbsent => 8,
            Reason::RootTooSmall => 9,
            Reason::KindUnfit => 10,
            Reason::PointersPassEnd => 11,
            Reason::TableTooShort => 19,
            Reason::NoSuchCell | Reason::NoSuchColumn => 20,
            Reason::IndexPage => 25,
            Reason::TooDeep => 26,
            Reason::VisitsUsedUp => 28,
        }
    }
}

impl Fault {
    // The numbers where it is met.
    fn row(self, page: u32, cell: usize) -> Numbers
        ensures { result ≡ fault_row page cell self }
    {
        match self {
            Fault::PointerOutside => row_of(12, page, cell, 0, 0),
            Fault::CellCut => row_of(13, page, cell, 0, 0),
            Fault::PayloadSpills => row_of(18, page, cell, 0, 0),
            Fault::BufferTooShort => row_of(24, page, cell, 0, 0),
            Fault::ChainUnfit => row_of(23, page, cell, 0, 0),
            Fault::HeaderUnfit => row_of(14, page, cell, 0, 0),
            Fault::TypeReserved { column } => row_of(15, page, cell, column, 0),
            Fault::ValueUnfit { column } => row_of(16, page, cell, column, 0),
            Fault::ClosingCut => row_of(17, page, cell, 0, 0),
            Fault::Marked(mark) => row_of(21, page, cell, 0, mark.number()),
            Fault::OutOfOrder => row_of(27, page, cell, 0, 0),
        }
    }
}

impl Mark {
    fn number(self) -> u8
        ensures { result ≡ mark_number self }
    {
        match self {
            Mark::LongVarint => 1,
            Mark::WideHeaderSize => 2,
            Mark::StoredOne => 3,
            Mark::EmptyValue => 4,
            Mark::Spilled => 5,
        }
    }
}
