// The lists of addresses and of answers, as words of 64 bits: an address in three, an answer in eight, as C lays them out on x86-64. A
// page's number is the lower half of its word.
ghost use Rattle.std.specs.Prelude.{◌≡◌, ◌+◌, ◌*◌, ◌/◌, ◌^◌, ◌≤◌, ◌<◌, length};
ghost use Rattle.std.proofs.lemmas.List.Edits.{sets};
ghost use Rattle.turns.specs.Words.{shown_words};
ghost use Rattle.addresses.specs.Turns.{named_page, named_cell, named_column};

use turns::types::Shown;

// How many addresses so many words are.
pub fn count_of(words: usize) -> usize
    ensures count { result ≡ words / 3 }
    ensures room { 3 * result < 2 ^ 64 }
{
    words / 3
}

// And how many answers.
pub fn places_of(words: usize) -> usize
    ensures places { result ≡ words / 8 }
    ensures room { 8 * result < 2 ^ 64 }
{
    words / 8
}

// THE NUMBERS OF AN ADDRESS

pub fn page_at(addresses: &[u64], i: usize) -> u32
    requires { 3 * i + 3 ≤ length addresses.now }
    ensures { result ≡ named_page i addresses.now }
{
    (addresses[3 * i] % 4_294_967_296) as u32
}

pub fn cell_at(addresses: &[u64], i: usize) -> usize
    requires { 3 * i + 3 ≤ length addresses.now }
    ensures { result ≡ named_cell i addresses.now }
{
    addresses[3 * i + 1] as usize
}

pub fn column_at(addresses: &[u64], i: usize) -> usize
    requires { 3 * i + 3 ≤ length addresses.now }
    ensures { result ≡ named_column i addresses.now }
{
    addresses[3 * i + 2] as usize
}

// AN ANSWER

// Stores an answer in its place.
pub fn put(answers: &mut [i64], i: usize, shown: Shown)
    requires { 8 * i + 8 ≤ length answers.old }
    ensures { answers.new ≡ sets answers.old (8 * i) (shown_words shown) }
{
    words::put_shown(&mut answers[8 * i..8 * i + 8], shown);
}
