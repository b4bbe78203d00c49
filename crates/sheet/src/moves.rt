// The index of the U body: its lines rise by from, so a position's moves lie between its first line and the next position's.
ghost use Rattle.std.specs.Prelude.{◌≡◌, true, ◌≤◌};
ghost use Rattle.theory.specs.Fold.{all_below};
ghost use Rattle.sheet.specs.code.Arrays.{line_count, from_below, first_line, firsts_of};

use crate::limits::{INDEX, MOST_MOVES};

// The lines that are looked at: as many as check 5 leaves, so that an entry of the index fits, for any body.
pub fn line_count(u: &[u8]) -> usize
    ensures { result ≡ line_count u.now }
{
    (u.len() / 2).min(MOST_MOVES)
}

// The first line, from a given one on, that is not of a position below q.
fn skip_below(u: &[u8], from: usize, q: usize) -> usize
    requires { (from ≤ line_count u.now) × (all_below (from_below u.now q) from ≡ true) }
    ensures { result ≡ first_line u.now q }
{
    let n = line_count(u);
    (from..n)
        .find(|&line| q <= usize::from(u[2 * line]))
        .unwrap_or(n)
}

// For each position its first line, or where it would stand; one entry more, for the end of the last. Not `partition_point` for each
// position: one pass over the lines serves all. There are at most 4,096, so an entry is cast without a loss.
#[tactic(auto, using(crate::proofs::MoveLaws::indexing))]
pub fn first_lines(u: &[u8]) -> [u16; INDEX]
    ensures { result ≡ firsts_of u.now }
{
    let mut firsts = [0u16; INDEX];
    let mut line = 0;
    for (q, first) in firsts.iter_mut().enumerate() {
        line = skip_below(u, line, q);
        *first = line as u16;
    }
    firsts
}
