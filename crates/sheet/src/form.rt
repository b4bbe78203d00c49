// The house form of sheets: contents with two-byte numbers, then the bodies back to back. Every function is total: a byte past
// the end of a sheet reads as 0, and a part that would pass the end stops there. No `Option`: the checks come in document 01's order, and
// some read a byte before they know the length.
ghost use Rattle.std.specs.Prelude.{◌≡◌, ◌<◌, get_or};
ghost use Rattle.sheet.specs.Limits.{width};
ghost use Rattle.sheet.specs.Form.{contents_ok, placed_at, part_at, body_of};
ghost use Rattle.theory.specs.Bytes.{number_at};

use crate::limits::ENTRY;

// Where a body lies in its sheet.
#[derive(Clone, Copy, Debug, PartialEq, Eq)]
pub struct Place {
    pub at: usize,
    pub size: usize,
}

// The byte at an index.
pub fn byte(s: &[u8], i: usize) -> u8
    ensures { result ≡ get_or s.now i 0 }
{
    s.get(i).copied().unwrap_or(0)
}

// The two-byte number at a place, low byte first. Past the end both bytes read as 0, and no sum wraps.
#[tactic(auto, unfolding(theory::specs::Bytes::number_at))]
pub fn two_bytes(s: &[u8], at: usize) -> usize
    ensures { (result ≡ number_at width s.now at) × (result < 65536) }
{
    if s.len() <= at {
        return 0;
    }
    usize::from(u16::from_le_bytes([byte(s, at), byte(s, at + 1)]))
}

// Are the contents those of a sheet with these letters? A place is below 65,536 once it equals an offset, so no sum wraps.
#[tactic(auto, using(crate::proofs::FormLaws::contents))]
pub fn contents_ok(s: &[u8], letters: &[u8]) -> bool
    ensures { result ≡ contents_ok width letters.now s.now }
{
    if s.len() / ENTRY < letters.len() {
        return false;
    }
    // Not `all`, since each step needs the place that the step before it left, and `try_fold` with that place is no plainer. By index, as
    // `two_bytes` reads the sheet.
    let mut at = ENTRY * letters.len();
    for (k, &letter) in letters.iter().enumerate() {
        if s[ENTRY * k] != letter || two_bytes(s, ENTRY * k + 1) != at {
            return false;
        }
        at += two_bytes(s, ENTRY * k + 3);
    }
    at == s.len()
}

// Where the contents say that body k lies.
#[tactic(auto, using(crate::proofs::FormLaws::unplaced, crate::proofs::FormLaws::placed_is))]
pub fn placed(s: &[u8], k: usize) -> Place
    ensures { result ≡ placed_at width s.now k }
{
    if s.len() / ENTRY < k {
        return Place { at: 0, size: 0 };
    }
    let entry = &s[ENTRY * k..];
    Place {
        at: two_bytes(entry, 1),
        size: two_bytes(entry, 3),
    }
}

// The part of a sheet at a place: how other crates come to the bodies that a reading's layout names.
#[tactic(auto, unfolding(crate::specs::Form::part_at))]
pub fn part(s: &[u8], place: Place) -> &[u8]
    ensures { result.now ≡ part_at s.now place }
{
    let rest = &s[place.at.min(s.len())..];
    &rest[..place.size.min(rest.len())]
}

// The body of entry k.
#[tactic(auto, unfolding(crate::specs::Form::body_of))]
pub fn body(s: &[u8], k: usize) -> &[u8]
    ensures { result.now ≡ body_of width s.now k }
{
    part(s, placed(s, k))
}
