// Reading a table sheet: document 01's refusals 10 to 12, in the order written.
ghost use Rattle.std.specs.Prelude.{◌≡◌, [], ◌*◌, ◌%◌, ◌^◌, ◌≤◌, length, get_or};
ghost use Rattle.sheet.specs.Limits.{most_actions, most_delay};
ghost use Rattle.sheet.specs.code.Steps.{most_power};
ghost use Rattle.table.specs.TableSheet.{table_layout, says, table_at, bytes_below, shape_answer, some_flagged};
ghost use Rattle.table.specs.TableSheet.{table_answer, masks_of};
ghost use Rattle.sheet.specs.Refusals.{answer_by};
ghost use Rattle.table.specs.code.Steps.{ranges_ok, filled_ok};

use sheet::form::{Place, body, byte, contents_ok, part, placed};
use sheet::limits::{MOST_ACTIONS, MOST_DELAY, MOST_NODES};
use sheet::refusal::Refusal;
use sheet::size::power;

// The bits of a byte.
const BYTE: u8 = 8;

// What an accepted reading carries: the start bytes and the places of the W and T bodies. Any numbers: public functions take layouts that
// nobody checked, so what `read` checked of the delay is asked for where it matters. Not joined with a game sheet's layout (reader), nor its
// tests: what the start must be is another, and a struct of the start bytes in both would put a step more into every definition that names one.
#[derive(Clone, Copy, Debug, PartialEq, Eq)]
pub struct TableLayout {
    pub start: u8,
    pub actions: u8,
    pub delay: u8,
    pub highest: u8,
    pub flags: Place,
    pub masks: Place,
}

#[tactic(auto, unfolding(crate::specs::TableSheet::table_layout))]
fn layout_at(s: &[u8]) -> TableLayout
    ensures { result ≡ table_layout s.now }
{
    let h = body(s, 0);
    TableLayout {
        start: byte(h, 0),
        actions: byte(h, 1),
        delay: byte(h, 2),
        highest: byte(h, 3),
        flags: placed(s, 1),
        masks: placed(s, 2),
    }
}

// Check 11, the numbers of the S body one by one.
#[tactic(auto, unfolding(crate::specs::code::Steps::ranges_ok, theory::specs::Fold::both))]
fn numbers_ok(l: TableLayout) -> bool
    ensures { result ≡ ranges_ok (says l [] []) }
{
    (1..=MOST_ACTIONS).contains(&l.actions) && l.delay <= MOST_DELAY && l.start <= l.highest
}

// How many first words there are where so many words are pending: as many, and at an odd delay as many for each action. Not shared with
// region's `words`: they are two lines each, and a public function for both would take any numbers and cut the product off.
#[tactic(auto, using(crate::proofs::TableLaws::words_odd))]
fn first_words(actions: u8, delay: u8, pending: usize) -> usize
    requires { pending ≤ most_power }
    ensures { result ≡ pending * actions ^ (delay % 2) }
{
    if delay % 2 == 0 {
        pending
    } else {
        pending * usize::from(actions)
    }
}

// Has no byte a bit at n or above? Every call of the controller reads its whole sheet: the fold has no exit, so that it compiles to
// vector instructions, and where no byte has such a bit they have none together.
fn bits_below(n: u8, b: &[u8]) -> bool
    ensures { result ≡ bytes_below (2 ^ n) b.now }
{
    BYTE <= n || b.iter().fold(0, |all, x| all | x) >> n == 0
}

// Check 11, the number of nodes, and the W and T bodies. Small tables are read in a few nanoseconds, so the power is worked out once.
#[tactic(auto, using(crate::proofs::TableLaws::bodies))]
fn bodies_ok(l: TableLayout, w: &[u8], t: &[u8]) -> bool
    requires { (l.actions ≤ most_actions) × (l.delay ≤ most_delay) }
    ensures { result ≡ filled_ok (says l w.now t.now) }
{
    let pending = power(l.actions, usize::from(l.delay) / 2);
    let nodes = (usize::from(l.highest) + 1) * pending;
    nodes <= MOST_NODES
        && t.len() == nodes
        && w.len() == first_words(l.actions, l.delay, pending)
        && bits_below(1, w)
        && bits_below(l.actions, t)
}

// Checks 10 and 11. Reading ends here where first words don't matter.
#[tactic(auto, using(crate::proofs::TableLaws::shapes))]
pub fn read_shape(sheet: &[u8]) -> Result<TableLayout, Refusal>
    ensures { answer_by (table_at sheet.now) result ≡ shape_answer sheet.now }
{
    if !contents_ok(sheet, b"SWT") {
        return Err(Refusal::TableContents);
    }
    if body(sheet, 0).len() != 4 {
        return Err(Refusal::TableShape);
    }
    let l = layout_at(sheet);
    if !numbers_ok(l) || !bodies_ok(l, part(sheet, l.flags), part(sheet, l.masks)) {
        return Err(Refusal::TableShape);
    }
    Ok(l)
}

// Is some byte of the W body not 0?
pub fn some_flagged(w: &[u8]) -> bool
    ensures { result ≡ some_flagged (record { flags = w.now; masks = [] }) }
{
    w.iter().any(|&b| b != 0)
}

// Checks 10 and 11, then 12.
#[tactic(auto, using(crate::proofs::TableLaws::reads), unfolding(crate::specs::TableSheet::table_answer, theory::specs::Answer::on_accepted))]
pub fn read(sheet: &[u8]) -> Result<TableLayout, Refusal>
    ensures { answer_by (table_at sheet.now) result ≡ table_answer sheet.now }
{
    let l = read_shape(sheet)?;
    if !some_flagged(part(sheet, l.flags)) {
        return Err(Refusal::NoInitialWord);
    }
    Ok(l)
}

// The T body as that part of the caller's sheet: body 2 where the sheet is accepted, and an empty part where it is refused. No Result: a
// function that could not fail still can't, and callers who want the refusal call `read`.
#[tactic(auto, unfolding(crate::specs::TableSheet::masks_of, crate::specs::TableSheet::masks_in))]
pub fn masks(sheet: &[u8]) -> &[u8]
    ensures { result.now ≡ masks_of sheet.now }
{
    if read(sheet).is_err() {
        return &[];
    }
    body(sheet, 2)
}

// Those who judge a table read its T body by these two alone: how many masks it has, and the mask of node k. It is 0 where there is no such
// node, and no Option: a mask of 0 has no action, which is all that they ask.
pub fn mask_count(masks: &[u8]) -> usize
    ensures { result ≡ length masks.now }
{
    masks.len()
}

pub fn mask_of(masks: &[u8], k: usize) -> usize
    ensures { result ≡ get_or masks.now k 0 }
{
    usize::from(byte(masks, k))
}
