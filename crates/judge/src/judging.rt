// Judging a table sheet, whoever made it, against a game sheet: refusals 1 to 7, 10 to 12, then 21; then yes, or what offends first.
ghost use Rattle.std.specs.Prelude.{◌≡◌, ◌<◌, length};
ghost use Rattle.theory.specs.Answer.{accepted};
ghost use Rattle.theory.specs.Delay.{arena};
ghost use Rattle.theory.specs.Judging.{ruling};
ghost use Rattle.sheet.specs.Bodies.{delay_of};
ghost use Rattle.sheet.specs.Refusals.{answer_by};
ghost use Rattle.sheet.specs.SheetGame.{game_of};
ghost use Rattle.reader.specs.Reading.{read_answer};
ghost use Rattle.walk.specs.code.Arenas.{arena_in};
ghost use Rattle.judge.specs.Judging.{judge_answer, ruling_of};
ghost use Rattle.judge.specs.code.Tests.{whole_at, flag_stands, good_flags, first_failing};
ghost use Rattle.judge.specs.code.Judgeable.{layouts_agree, Judgeable, table_with};

use reader::reading::{Layout, read};
use region::arrays::GameArrays;
use region::words::initial_flags;
use rule::part::{allowed_part, fill_marks};
use sheet::form::{byte, part};
use sheet::limits::{MOST_NODES, MOST_WORDS};
use sheet::refusal::Refusal;
use table::reading::{TableLayout, mask_of, read as read_table};
use walk::sized::SizedArena;

// Yes, or the number of the first offending word in W or of the first offending node. A no is a ruling and no error: refusals are.
#[derive(Clone, Copy, Debug, PartialEq, Eq)]
pub enum Judgement {
    Sound,
    BadWord(usize),
    BadNode(usize),
}

// Check 21, field by field, as the two layouts are different types.
#[tactic(auto, unfolding(crate::specs::code::Judgeable::layouts_agree, theory::specs::Fold::both))]
pub fn layouts_agree(l: Layout, x: TableLayout) -> bool
    ensures { result ≡ layouts_agree l x }
{
    x.start == l.start
        && x.actions == l.actions
        && x.delay == l.delay
        && usize::from(x.highest) + 1 == l.positions.size
}

// Has word v no flag, or is it good? Flags are bytes of 0 and 1, as the W body has them.
#[tactic(auto, unfolding(crate::specs::code::Tests::flag_stands, theory::specs::Fold::either))]
fn flag_stands(flags: &[u8], good: &[u8], v: usize) -> bool
    ensures { result ≡ flag_stands flags.now good.now v }
{
    byte(flags, v) == 0 || byte(good, v) != 0
}

// The first word with a flag that is not good.
fn first_wrong(flags: &[u8], good: &[u8]) -> Option<usize>
    ensures { result ≡ first_failing (flag_stands flags.now good.now) (length flags.now) }
{
    (0..flags.len()).find(|&v| !flag_stands(flags, good, v))
}

// The first word of a sheet with a flag that is not good by these marks.
#[tactic(auto, unfolding(crate::specs::code::Tests::good_flags))]
fn first_bad_word(sheet: &[u8], flags: &[u8], marks: &[u16]) -> Option<usize>
    ensures { result ≡ first_failing (flag_stands flags.now (good_flags sheet.now marks.now)) (length flags.now) }
{
    let mut good = [0u8; MOST_WORDS];
    initial_flags(sheet, marks, &mut good);
    first_wrong(flags, &good)
}

// May the whole mask of node k, which exists, stand?
#[tactic(auto, using(crate::proofs::JudgeLaws::whole_here))]
fn is_whole(sized: &SizedArena, masks: &[u8], marks: &[u16], k: usize) -> bool
    requires { k < sized.now.arena.now.level.nodes }
    ensures { result ≡ whole_at (arena_in sized.now.arena.now) marks.now masks.now k }
{
    let mask = mask_of(masks, k);
    allowed_part(sized.arena, marks, k, mask) == mask
}

// The first node whose mask may not stand whole.
fn first_unsound(sized: &SizedArena, masks: &[u8], marks: &[u16]) -> Option<usize>
    ensures { result ≡ first_failing (whole_at (arena_in sized.now.arena.now) marks.now masks.now) sized.now.arena.now.level.nodes }
{
    (0..sized.arena.level.nodes).find(|&k| !is_whole(sized, masks, marks, k))
}

// The first such node of a sheet that was read.
fn first_bad_node(sheet: &[u8], l: Layout, masks: &[u8], marks: &[u16]) -> Option<usize>
    requires { read_answer sheet.now ≡ accepted l }
    ensures { result
        ≡ first_failing
        (whole_at (arena (game_of sheet.now) (delay_of sheet.now)) marks.now masks.now)
        (arena (game_of sheet.now) (delay_of sheet.now)).nodes }
{
    let game = GameArrays::of(sheet, l);
    let arena = game.arena(l.delay);
    first_unsound(&SizedArena { arena: &arena }, masks, marks)
}

// Judging by the W and T bodies: words before nodes. Masks and marks stay two slices: here alone it is known that they fit.
fn judge_bodies(sheet: &[u8], l: Layout, flags: &[u8], masks: &[u8]) -> Judgement
    requires { Judgeable sheet.now l flags.now masks.now }
    ensures { ruling_of result ≡ ruling (game_of sheet.now) (delay_of sheet.now) (table_with flags.now masks.now) }
{
    let mut marks = [0u16; MOST_NODES];
    fill_marks(masks, &mut marks);
    if let Some(v) = first_bad_word(sheet, flags, &marks) {
        return Judgement::BadWord(v);
    }
    if let Some(k) = first_bad_node(sheet, l, masks, &marks) {
        return Judgement::BadNode(k);
    }
    Judgement::Sound
}

// Judging, for any two sheets.
#[tactic(auto, using(crate::proofs::JudgeLaws::judgings))]
pub fn judge(sheet: &[u8], table: &[u8]) -> Result<Judgement, Refusal>
    ensures { answer_by ruling_of result ≡ judge_answer sheet.now table.now }
{
    let l = read(sheet)?;
    let x = read_table(table)?;
    if !layouts_agree(l, x) {
        return Err(Refusal::Mismatch);
    }
    Ok(judge_bodies(sheet, l, part(table, x.flags), part(table, x.masks)))
}
