// One of the three readings, as a caller chooses it: its pages, and their cells.
#![tactic(auto)]

ghost use Rattle.std.specs.Prelude.{◌≡◌};
ghost use Rattle.row.specs.Found.{found_by};
ghost use Rattle.chosen.specs.Chosen.{chosen_by, reading_of, is_guarded, open_of, located_in};

use answers::Refusal;
use page::Open;
use reading::Reading;
use row::FoundCell;

#[derive(Clone, Copy)]
pub enum Chosen {
    Old,
    File,
    Guarded,
}

// By its number: 0 is old, 2 guarded, and any other number file, so that no call has to refuse one.
impl From<u8> for Chosen {
    ghost from_gives = { λ number chosen. chosen ≡ chosen_by number };

    fn from(number: u8) -> Chosen {
        match number {
            0 => Chosen::Old,
            2 => Chosen::Guarded,
            _ => Chosen::File,
        }
    }
}

// The same under the name that docs/PROMISES.md has.
pub fn chosen_of(number: u8) -> Chosen
    ensures { result ≡ chosen_by number }
{
    Chosen::from(number)
}

impl Chosen {
    // The one in which values are shown.
    pub fn reading(self) -> Reading
        ensures { result ≡ reading_of self }
    {
        match self {
            Chosen::Old => Reading::Old,
            Chosen::File | Chosen::Guarded => Reading::File,
        }
    }

    pub fn is_guarded(self) -> bool
        ensures { result ≡ is_guarded self }
    {
        matches!(self, Chosen::Guarded)
    }
}

// The page of that number.
pub fn open_page(db: &[u8], chosen: Chosen, number: u32) -> Result<Open, Refusal>
    ensures { result ≡ open_of chosen number db.now }
{
    match chosen {
        Chosen::Old => page::open_page(db, place::old(number)),
        Chosen::File => page::open_page(db, place::file(number)),
        Chosen::Guarded => guarded::open_page(db, number),
    }
}

// Cell `i` of a page that was opened.
pub fn found_in(db: &[u8], guarded: bool, opened: Open, i: usize) -> Result<FoundCell, Refusal>
    ensures { result ≡ found_by (located_in guarded opened i db.now) }
{
    if guarded {
        guarded::found_in(db, opened, i)
    } else {
        row::found_in(db, opened, i)
    }
}
