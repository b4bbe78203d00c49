// The lines of the C and U bodies: checks 4 to 6.
ghost use Rattle.std.specs.Prelude.{◌≡◌, [], ◌/◌, ◌≤◌, ◌<◌, ltb, length, get_or};
ghost use Rattle.theory.specs.Fold.{both, tabulate};
ghost use Rattle.sheet.specs.Limits.{most_positions};
ghost use Rattle.reader.specs.Checks.{key_at, targets_ok, moves_ok, has_line, all_leave};
ghost use Rattle.reader.specs.code.Steps.{follows, target_line, move_line, leaves_by};

use sheet::form::byte;
use sheet::kinds::{controller_at, environment_at};
use sheet::limits::{MOST_MOVES, ROWS};

// The first two bytes of a line as one number, by which lines are ordered.
#[tactic(auto, unfolding(crate::specs::Checks::key_at))]
fn key(line: &[u8]) -> u16
    ensures { result ≡ key_at line.now 0 }
{
    u16::from_be_bytes([byte(line, 0), byte(line, 1)])
}

// Is the next line's key larger?
fn rises(line: &[u8], next: &[u8]) -> bool
    ensures { result ≡ ltb (key_at line.now 0) (key_at next.now 0) }
{
    key(line) < key(next)
}

// Has line k a larger key than the line before it?
#[tactic(auto, unfolding(theory::specs::Fold::either))]
fn follows<const W: usize>(lines: &[[u8; W]], k: usize) -> bool
    requires { k < length lines.now }
    ensures { result ≡ follows lines.now k }
{
    k == 0 || rises(&lines[k - 1], &lines[k])
}

// Is line k of the C body right?
#[tactic(auto, unfolding(theory::specs::Fold::both))]
fn target_ok(p: &[u8], actions: u8, lines: &[[u8; 3]], k: usize) -> bool
    requires { k < length lines.now }
    ensures { result ≡ both (follows lines.now k) (target_line p.now actions (get_or lines.now k [])) }
{
    let [from, action, to] = lines[k];
    follows(lines, k)
        && controller_at(p, usize::from(from))
        && action < actions
        && environment_at(p, usize::from(to))
}

// Check 4. One pass, which ends at the first line that is wrong: `is_sorted_by` would look at all keys before.
#[tactic(auto, unfolding(crate::specs::Checks::targets_ok, theory::specs::Fold::both))]
pub(crate) fn targets_ok(p: &[u8], actions: u8, c: &[u8]) -> bool
    ensures { result ≡ targets_ok p.now actions c.now }
{
    let (lines, []) = c.as_chunks::<3>() else {
        return false;
    };
    (0..lines.len()).all(|k| target_ok(p, actions, lines, k))
}

// Is line k of the U body right?
#[tactic(auto, unfolding(theory::specs::Fold::both))]
fn move_ok(p: &[u8], lines: &[[u8; 2]], k: usize) -> bool
    requires { k < length lines.now }
    ensures { result ≡ both (follows lines.now k) (move_line p.now (get_or lines.now k [])) }
{
    let [from, to] = lines[k];
    follows(lines, k) && environment_at(p, usize::from(from)) && controller_at(p, usize::from(to))
}

// Check 5. Not one generic function with check 4: that was tried, and its proof did not close.
#[tactic(auto, unfolding(crate::specs::Checks::moves_ok, theory::specs::Fold::both))]
pub(crate) fn moves_ok(p: &[u8], u: &[u8]) -> bool
    ensures { result ≡ moves_ok p.now u.now }
{
    match u.as_chunks::<2>() {
        (lines, []) if lines.len() <= MOST_MOVES => {
            (0..lines.len()).all(|k| move_ok(p, lines, k))
        }
        _ => false,
    }
}

// For each position that there can be: does a line of W bytes begin with it? One pass over the lines.
#[tactic(auto, using(crate::proofs::CheckLaws::begun_none, crate::proofs::CheckLaws::begun_more))]
fn begun<const W: usize>(b: &[u8]) -> [bool; ROWS]
    requires { (0 < W) × (W < 256) }
    ensures { result ≡ tabulate (has_line W b.now (length b.now / W)) 0 most_positions }
{
    let (lines, _) = b.as_chunks::<W>();
    let mut begun = [false; ROWS];
    for line in lines {
        begun[usize::from(line[0])] = true;
    }
    begun
}

// Has position q a move of its own kind, with where the C and U lines begin?
#[tactic(auto, unfolding(crate::specs::code::Steps::leaves_by))]
fn leaves_at(p: &[u8], targets: &[bool; ROWS], moves: &[bool; ROWS], q: usize) -> bool
    requires { q < most_positions }
    ensures { result ≡ leaves_by p.now targets.now moves.now q }
{
    if controller_at(p, q) {
        targets[q]
    } else {
        moves[q]
    }
}

// Check 6.
pub(crate) fn all_leave(p: &[u8], c: &[u8], u: &[u8]) -> bool
    requires { length p.now ≤ most_positions }
    ensures { result ≡ all_leave p.now c.now u.now }
{
    let targets = begun::<3>(c);
    let moves = begun::<2>(u);
    (0..p.len()).all(|q| leaves_at(p, &targets, &moves, q))
}
