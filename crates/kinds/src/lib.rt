// The four kinds of b-tree page, and what a cell of each has: file format, 1.6 "B-tree Pages".
#![tactic(auto)]

ghost use Rattle.std.specs.Prelude.{◌≡◌, ◌-◌, ◌*◌, ◌/◌};
ghost use Rattle.kinds.specs.Kind.{kind_byte, Names, interior, is_leaf_table, has_size, has_row, has_closing, child_bytes, most_whole};

use reading::Reading;

#[derive(Clone, Copy)]
pub enum Kind {
    InteriorIndex,
    InteriorTable,
    LeafIndex,
    LeafTable,
}

// A byte that names no kind.
#[derive(Clone, Copy)]
pub struct NoKind;

impl From<Kind> for u8 {
    ghost from_gives = { λ kind byte. byte ≡ kind_byte kind };

    fn from(kind: Kind) -> u8 {
        kind.byte()
    }
}

impl TryFrom<u8> for Kind {
    type Error = NoKind;

    ghost try_from_gives = { Names };

    fn try_from(byte: u8) -> Result<Kind, NoKind> {
        match byte {
            2 => Ok(Kind::InteriorIndex),
            5 => Ok(Kind::InteriorTable),
            10 => Ok(Kind::LeafIndex),
            13 => Ok(Kind::LeafTable),
            _ => Err(NoKind),
        }
    }
}

impl Kind {
    pub fn byte(self) -> u8
        ensures { result ≡ kind_byte self }
    {
        match self {
            Kind::InteriorIndex => 2,
            Kind::InteriorTable => 5,
            Kind::LeafIndex => 10,
            Kind::LeafTable => 13,
        }
    }

    pub fn is_interior(self) -> bool
        ensures { result ≡ interior self }
    {
        matches!(self, Kind::InteriorIndex | Kind::InteriorTable)
    }

    // Whether it is a leaf of a table: the one kind that has rows.
    pub fn is_leaf_table(self) -> bool
        ensures { result ≡ is_leaf_table self }
    {
        matches!(self, Kind::LeafTable)
    }

    // Whether its cells have a payload, and the size of it.
    pub fn has_size(self) -> bool
        ensures { result ≡ has_size self }
    {
        !matches!(self, Kind::InteriorTable)
    }

    // Whether its cells have a row number or a key.
    pub fn has_row(self) -> bool
        ensures { result ≡ has_row self }
    {
        matches!(self, Kind::InteriorTable | Kind::LeafTable)
    }

    // Whether one more varint stands behind a record.
    pub fn has_closing(self, reading: Reading) -> bool
        ensures { result ≡ has_closing reading self }
    {
        matches!(
            (reading, self),
            (Reading::Old, Kind::InteriorIndex | Kind::LeafIndex)
        )
    }

    // How many bytes a child takes.
    pub fn child_bytes(self) -> usize
        ensures { result ≡ child_bytes self }
    {
        if self.is_interior() { 4 } else { 0 }
    }

    // The largest payload that lies whole on a page.
    pub fn most_whole(self, usable: u32) -> u64
        ensures { result ≡ most_whole self usable }
    {
        match self {
            Kind::InteriorTable => 0,
            Kind::LeafTable => u64::from(usable).saturating_sub(35),
            Kind::InteriorIndex | Kind::LeafIndex => index_most(usable),
        }
    }
}

fn index_most(usable: u32) -> u64
    ensures { result ≡ (usable - 12) * 64 / 255 - 23 }
{
    (u64::from(usable).saturating_sub(12) * 64 / 255).saturating_sub(23)
}
