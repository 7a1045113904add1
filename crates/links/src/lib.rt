// An overflow chain: page by page, and whether it is whole.
//
// From the file format, 1.7 "Cell Payload Overflow Pages". A chain has as many pages as the payload's size says, so one that runs in
// a circle ends too.
#![tactic(auto)]

ghost use Rattle.std.specs.Prelude.{◌≡◌};
ghost use Rattle.links.specs.Links.{chain_of};
ghost use Rattle.links.specs.Whole.{whole};

use fields::be_u32;
use shape::Shape;

// Whether so many pages of a chain lie in the file, and it ends behind them.
pub fn is_whole(db: &[u8], shape: Shape, first: u32, links: u64) -> bool
    ensures { result ≡ whole (chain_of links shape first db.now) }
{
    let mut number = first;
    for _link in 0..links {
        let Some(place) = place::place_of(db.len(), shape, place::file(number)) else {
            return false;
        };
        number = be_u32(&db[place.at..]);
    }
    number == 0
}
