// The page call: it fills its share of a table that the caller lends with the entries of a page's cells.
//
// The page is opened once. What the call answers is decided by `table::check_by`, which sees the share's room alone: so
// nothing is written before every cell is known to be sound, and a page that is refused leaves the table as it was. Which places are
// the share's is decided by `halves`: no other is written.
#![tactic(auto)]

ghost use Rattle.std.specs.Prelude.{◌≡◌, ◌+◌, ◌≤◌, length};
ghost use Rattle.lent.specs.Call.{answer_of, left_of};
ghost use Rattle.lent.specs.Filling.{filled_from};

use answers::Refusal;
use halves::Share;
use page::Open;
use place::Page;
use table::{Entry, Head};

// The page call.
pub fn page(db: &[u8], asked: Page, share: Share, table: &mut [Entry]) -> Result<Head, Refusal>
    ensures { (result ≡ answer_of share asked db.now (length table.old))
        × (table.new ≡ left_of share asked db.now table.old) }
{
    let opening = page::open_page(db, asked);
    let places = table.len();
    let room = halves::room_of(share, places);
    let answer = table::check_by(db, opening, room);
    let n = table::written_of(answer);
    let from = halves::start_of(share, places);
    fill(db, opening, from, n, table);
    answer
}

// Stores the entries of the first n cells, each at its place, from place `from` on.
fn fill(db: &[u8], opening: Result<Open, Refusal>, from: usize, n: usize, table: &mut [Entry])
    requires { from + n ≤ length table.old }
    ensures { table.new ≡ filled_from from opening db.now n table.old }
{
    for i in 0..n {
        table[from + i] = table::entry_by(db, opening, i);
    }
}
