// How much of a payload that spills stays on its page, and how many overflow pages hold the rest.
//
// From the file format, 1.6 "B-tree Pages" and 1.7 "Cell Payload Overflow Pages".
#![tactic(auto)]

ghost use Rattle.std.specs.Prelude.{◌≡◌, ◌/◌, ◌%◌};
ghost use Rattle.kept.specs.Kept.{least_kept, kept_of, links_of};

use kinds::Kind;

// Pages of four usable bytes or less hold nothing: then no page is filled, and all is over.
fn filled(n: u64, width: u64) -> u64
    ensures { result ≡ n / width }
{
    n.checked_div(width).unwrap_or(0)
}

fn over(n: u64, width: u64) -> u64
    ensures { result ≡ n % width }
{
    n.checked_rem(width).unwrap_or(n)
}

// The least that stays on the page of a payload that spills.
fn least_kept(usable: u32) -> u64
    ensures { result ≡ least_kept usable }
{
    (u64::from(usable).saturating_sub(12) * 32 / 255).saturating_sub(23)
}

// How much of a payload of `p` bytes stays on the page.
#[tactic(auto, unfolding(crate::specs::Kept::kept_of))]
pub fn kept_of(kind: Kind, usable: u32, p: u64) -> u64
    ensures { result ≡ kept_of kind usable p }
{
    let least = least_kept(usable);
    let even = least + over(p.saturating_sub(least), u64::from(usable).saturating_sub(4));
    if even <= kind.most_whole(usable) {
        even
    } else {
        least
    }
}

// How many overflow pages hold `n` bytes.
#[tactic(auto, unfolding(crate::specs::Kept::links_of))]
pub fn links_of(usable: u32, n: u64) -> u64
    ensures { result ≡ links_of usable n }
{
    let width = u64::from(usable).saturating_sub(4);
    let full = filled(n, width);
    if over(n, width) == 0 { full } else { full + 1 }
}
