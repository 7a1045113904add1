// Which part of a table a call is lent: all of it, or one of its two halves.
//
// A half is rounded down, so that both are as long as each other and an odd last place is in neither. What a call may count on is
// its share's room, and where it writes is from its share's start on: nothing else decides it.
#![tactic(auto)]

ghost use Rattle.std.specs.Prelude.{◌≡◌};
ghost use Rattle.halves.specs.Halves.{start_of, room_of};

#[derive(Clone, Copy)]
pub enum Share {
    Whole,
    First,
    Second,
}

// The first place of a share of so many places.
pub fn start_of(share: Share, places: usize) -> usize
    ensures { result ≡ start_of share places }
{
    match share {
        Share::Whole | Share::First => 0,
        Share::Second => places / 2,
    }
}

// How many places are in a share of so many.
pub fn room_of(share: Share, places: usize) -> usize
    ensures { result ≡ room_of share places }
{
    match share {
        Share::Whole => places,
        Share::First | Share::Second => places / 2,
    }
}
