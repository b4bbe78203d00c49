// Check 20: is a state one, under a table sheet's numbers? It is total: entries outside the window don't matter. Functions take the fields
// that they look at and are no methods of State: one that is not inlined would have the whole state written to the stack for each call.
ghost use Rattle.std.specs.Prelude.{◌≡◌, []};
ghost use Rattle.theory.specs.Fold.{all_below};
ghost use Rattle.table.specs.TableSheet.{says};
ghost use Rattle.state.specs.State.{held_at, within_at, state_ok};

use crate::state::{HELD, LAST_TURN, SLOTS, Slot, State};
use table::reading::TableLayout;

// Are the n newest actions held below the number of actions?
fn held_ok(actions: u8, last: [u8; HELD], n: usize) -> bool
    ensures { result ≡ all_below (held_at actions last) n }
{
    last.iter().take(n).all(|&action| action < actions)
}

// Are the positions in the n newest slots not over the highest?
fn window_ok(highest: u8, window: [Slot; SLOTS], n: usize) -> bool
    ensures { result ≡ all_below (within_at highest window) n }
{
    window.iter().take(n).all(|slot| slot.observed().is_none_or(|position| position <= highest))
}

// Check 20. It is inlined, as otherwise each call of the controller would write its decoded state to the stack for it.
#[inline(always)]
#[tactic(auto, unfolding(crate::specs::State::state_ok, crate::specs::State::held_ok, crate::specs::State::window_ok, theory::specs::Fold::both))]
pub fn state_ok(l: TableLayout, s: State) -> bool
    ensures { result ≡ state_ok (says l [] []) s }
{
    let delay = usize::from(l.delay);
    s.turn <= LAST_TURN
        && held_ok(l.actions, s.last, (delay / 2).min(s.turn))
        && window_ok(l.highest, s.window, delay.min(2 * s.turn) + 1)
}
