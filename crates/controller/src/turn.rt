// The action of a turn: the least first word's while 2i < d, else the lowest in the mask of the needed observation's node.
ghost use Rattle.std.specs.Prelude.{◌≡◌, [], ◌+◌, ◌*◌, ◌/◌, ◌^◌, ◌≤◌, ◌<◌, get_or, take};
ghost use Rattle.std.specs.Int.Count.{count_trailing_zeros};
ghost use Rattle.theory.specs.Words.{digit};
ghost use Rattle.theory.specs.Exact.{least_flagged};
ghost use Rattle.sheet.specs.Limits.{most_delay};
ghost use Rattle.state.specs.State.{most_held};
ghost use Rattle.controller.specs.Controller.{word_of};

use sheet::form::byte;
use sheet::size::digit;
use state::state::HELD;
use table::reading::TableLayout;

// The least word with a flag; the last word where no other has one.
pub(crate) fn least_flagged(w: &[u8]) -> usize
    ensures { result ≡ least_flagged (record { flags = w.now; masks = [] }) }
{
    w.iter()
        .position(|&flag| flag != 0)
        .unwrap_or(w.len().saturating_sub(1))
}

// Action i of a word of n actions, the oldest being 0. It is below their number, so the cast loses nothing.
#[tactic(auto, using(theory::proofs::Words::digit_lt))]
pub(crate) fn action_of(actions: u8, n: usize, word: usize, i: usize) -> u8
    requires { 0 < actions }
    ensures { result ≡ digit actions n word i }
{
    digit(usize::from(actions), n, word, i) as u8
}

// The node of a position and the word of the n newest actions, the oldest leading.
#[tactic(auto, using(crate::proofs::ActionLaws::node_laws))]
fn node_of(actions: u8, position: u8, last: [u8; HELD], n: usize) -> usize
    requires { n ≤ most_held }
    ensures { result ≡ position * actions ^ n + word_of actions (take n last) }
{
    let base = usize::from(actions);
    let mut node = usize::from(position);
    for &action in last[..n].iter().rev() {
        node = node * base + usize::from(action);
    }
    node
}

// The mask of the node of a position and the actions held.
pub(crate) fn mask_at(l: TableLayout, masks: &[u8], position: u8, last: [u8; HELD]) -> u8
    requires { l.delay ≤ most_delay }
    ensures { result
        ≡ get_or masks.now (position * l.actions ^ (l.delay / 2) + word_of l.actions (take (l.delay / 2) last)) 0 }
{
    byte(
        masks,
        node_of(l.actions, position, last, usize::from(l.delay) / 2),
    )
}

// The lowest action in a mask: 8 at most, so the cast loses nothing.
pub(crate) fn lowest(mask: u8) -> u8
    ensures { result ≡ count_trailing_zeros 8 mask }
{
    mask.trailing_zeros() as u8
}
