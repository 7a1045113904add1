// Whether every cell of an opened page is accepted: what a page call asks before it writes. The first failing cell decides.
#![tactic(auto)]

ghost use Rattle.std.specs.Prelude.{◌≡◌};
ghost use Rattle.sound.specs.Cells.{cells_from};

use answers::Refusal;
use page::Open;

pub fn check_cells(db: &[u8], opened: Open) -> Result<(), Refusal>
    ensures { result ≡ cells_from opened db.now 0 opened.cells }
{
    for i in 0..opened.cells {
        cells::cell_in(db, opened, i)?;
    }
    Ok(())
}
