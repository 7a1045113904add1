// Values and answers in the places of a lent table, as words of 64 bits.
//
// A place holds a `turns::types::Value` or a `Shown` as C lays it out on x86-64: small fields share a word, and each other has one, by its
// 64 bits. A table of words is lent in the stead of one of structs, for a store of a word is covered by the prover. A place is lent by
// itself, so that no store can reach another; one that is too short is left as it was.
#![tactic(auto)]

ghost use Rattle.std.specs.Prelude.{◌≡◌, ◌*◌, ◌/◌, ◌^◌, ◌<◌};
ghost use Rattle.turns.specs.Words.{words_of, refused_words, shown_words, value_at};
ghost use Rattle.words.specs.Laid.{laid_in};

use fields::signed_of;
use parts::behind;
use reading::Reading;
use turns::shown::{file_value, old_value};
use turns::types::{Refused, Shown, Value};

// How many values a table of so many words has places for.
pub fn places_of(words: usize) -> usize
    ensures places { result ≡ words / 5 }
    ensures room { 5 * result < 2 ^ 64 }
{
    words / 5
}

// The value of a column as its reading shows it.
pub fn value_at(db: &[u8], reading: Reading, serial: u64, at: usize) -> Value
    ensures { result ≡ value_at reading serial at db.now }
{
    match reading {
        Reading::Old => old_value(values::old::value_of(serial, behind(db, at), at)),
        Reading::File => file_value(values::file::value_of(serial, behind(db, at), at)),
    }
}

// Stores a value in its place.
#[tactic(auto, unfolding(crate::specs::Laid::laid_in))]
pub fn put_value(place: &mut [i64], value: Value)
    ensures { place.new ≡ laid_in place.old (words_of value) }
{
    if place.len() < 5 {
        return;
    }
    place[0] = signed_of(u64::from(value.kind) + 256 * u64::from(value.width));
    place[1] = value.integer;
    place[2] = signed_of(value.bits);
    place[3] = signed_of(value.at as u64);
    place[4] = signed_of(value.len as u64);
}

#[tactic(auto, unfolding(crate::specs::Laid::laid_in))]
fn put_refused(place: &mut [i64], refused: Refused)
    ensures { place.new ≡ laid_in place.old (refused_words refused) }
{
    if place.len() < 3 {
        return;
    }
    place[0] = signed_of(
        u64::from(refused.number)
            + 256 * u64::from(refused.mark)
            + 4_294_967_296 * u64::from(refused.page),
    );
    place[1] = signed_of(refused.cell as u64);
    place[2] = signed_of(refused.column as u64);
}

// Stores an answer in its place.
#[tactic(auto, unfolding(crate::specs::Laid::laid_in))]
pub fn put_shown(place: &mut [i64], shown: Shown)
    ensures { place.new ≡ laid_in place.old (shown_words shown) }
{
    if place.len() < 8 {
        return;
    }
    put_refused(&mut place[..3], shown.refused);
    put_value(&mut place[3..8], shown.value);
}
