// Parts of the bytes that a caller lends, whatever place and length are asked for: what does not lie there is left out; and the
// differences and bounds that go with them.
#![tactic(auto)]

ghost use Rattle.std.specs.Prelude.{◌≡◌, min, ◌-◌, take, drop};
ghost use Rattle.parts.specs.Part.{part_of};

// The bytes from `at` on.
pub fn behind(s: &[u8], at: usize) -> &[u8]
    ensures { result.now ≡ drop at s.now }
{
    s.get(at..).unwrap_or(&[])
}

// At most `len` bytes from `at` on.
pub fn part(s: &[u8], at: usize, len: usize) -> &[u8]
    ensures { result.now ≡ take len (drop at s.now) }
{
    let rest = behind(s, at);
    rest.get(..len).unwrap_or(rest)
}

// The `len` bytes from `at` on, such as those of a text or a blob; no bytes where they do not all lie there.
#[tactic(auto, unfolding(crate::specs::Part::part_of))]
pub fn whole_part(s: &[u8], at: usize, len: usize) -> &[u8]
    ensures { result.now ≡ part_of at len s.now }
{
    behind(s, at).get(..len).unwrap_or(&[])
}

// a - b, or 0 where b is larger: how much is left.
pub fn less(a: u64, b: u64) -> u64
    ensures { result ≡ a - b }
{
    a.saturating_sub(b)
}

pub fn least(a: usize, b: usize) -> usize
    ensures { result ≡ min a b }
{
    a.min(b)
}
