// Kept nodes and good first words, once the ranks stand.
ghost use Rattle.std.specs.Prelude.{◌≡◌, ◌<◌, length};
ghost use Rattle.theory.specs.Fold.{any_below, tabulate};
ghost use Rattle.theory.specs.Delay.{flag_by};
ghost use Rattle.sheet.specs.Limits.{most_positions};
ghost use Rattle.region.specs.code.Kept.{first_words, IsSized, keeps, good, some_good_in};
ghost use Rattle.region.specs.code.Flags.{flags_count, flags_after};

use reader::arrays::grid_at;
use reader::reading::read;
use sheet::form::part;
use sheet::grid::{Grid, target};
use sheet::kinds::{on_right, safe_at};
use sheet::limits::MOST_POSITIONS;
use walk::level::{Level, level_at};

// The nodes that these ranks keep at one delay: those of the right side without a rank (0, as walk's Fallen has it). First words don't ask about the environment's
// moves, so they are not here.
#[derive(Clone, Copy)]
pub struct Kept<'a> {
    pub positions: &'a [u8],
    pub grid: &'a Grid,
    pub level: Level,
    pub ranks: &'a [u16],
}

impl Kept<'_> {
    #[tactic(auto, unfolding(theory::specs::Rounds::kept_by, theory::specs::Rounds::fell, theory::specs::Fold::both, crate::specs::code::Kept::on_side))]
    pub(crate) fn has(&self, k: usize) -> bool
        requires { IsSized self.now }
        ensures { result ≡ keeps self.now k }
    {
        on_right(self.positions, self.level.odd, k / self.level.words)
            && self.ranks.get(k).copied().unwrap_or(0) == 0
    }

    // Is some first word good? For any level: none is where it or its start is too large.
    #[tactic(auto, unfolding(walk::specs::code::Nodes::is_sized, theory::specs::Fold::both))]
    pub fn some_good(&self) -> bool
        ensures { result ≡ some_good_in self.now }
    {
        self.level.is_sized(self.positions.len())
            && self.level.start < MOST_POSITIONS
            && SizedKept { kept: self }.any_good()
    }
}

// What stands behind the tests: kept nodes at a level that is small and whose start is no larger than a position.
#[derive(Clone, Copy)]
struct SizedKept<'a> {
    kept: &'a Kept<'a>,
    ghost fits: { IsSized kept.now },
    ghost start: { kept.now.level.start < most_positions },
}

impl SizedKept<'_> {
    // How many first words there are: at odd delays they have one action more. Not table's first_words: a function that both may call
    // would take any numbers and cut the product off.
    #[tactic(auto, unfolding(crate::specs::code::Kept::first_words, crate::specs::code::Kept::words_on), using(crate::proofs::GoodLaws::few_words_fit))]
    fn words(&self) -> usize
        ensures { result ≡ first_words self.now.kept.now.level }
    {
        let level = self.kept.level;
        if level.odd {
            level.words * level.actions
        } else {
            level.words
        }
    }

    // Is first word v good? At odd delays its oldest action is played from the start first.
    #[tactic(auto, unfolding(crate::specs::code::Kept::good_in, theory::specs::Delay::good_by, theory::specs::Delay::kept_at, theory::specs::Fold::both, sheet::specs::code::Arrays::view_of), using(crate::proofs::GoodLaws::fitting))]
    fn good(&self, v: usize) -> bool
        requires { v < first_words self.now.kept.now.level }
        ensures { result ≡ good self.now.kept.now v }
    {
        let kept = self.kept;
        let Level { start, words, .. } = kept.level;
        if kept.level.odd {
            // `match`, not `is_some_and`: of a closure that asks `has` the proof learns nothing
            safe_at(kept.positions, start)
                && match target(kept.grid, start, v / words) {
                    Some(to) => kept.has(usize::from(to) * words + v % words),
                    None => false,
                }
        } else {
            kept.has(start * words + v)
        }
    }

    fn any_good(&self) -> bool
        ensures { result ≡ any_below (good self.now.kept.now) (first_words self.now.kept.now.level) }
    {
        (0..self.words()).any(|v| self.good(v))
    }

    // The flags are bytes of 0 and 1, as the W body has them.
    #[tactic(auto, using(crate::proofs::FlagLaws::all_flags), unfolding(theory::specs::Delay::flag_by))]
    fn fill_flags(&self, flags: &mut [u8])
        requires { length flags.old ≡ first_words self.now.kept.now.level }
        ensures { flags.new ≡ tabulate (flag_by (good self.now.kept.now)) 0 (first_words self.now.kept.now.level) }
    {
        for (v, flag) in flags.iter_mut().enumerate() {
            *flag = u8::from(self.good(v));
        }
    }
}

// The flags of a sheet's first words by these ranks, and how many are written: none where the sheet is refused or the buffer has no
// room for all, and a count and no Option, since callers cut by it. Without the sheet's GameArrays, which index the moves.
pub fn initial_flags(sheet: &[u8], ranks: &[u16], flags: &mut [u8]) -> usize
    ensures count { result ≡ flags_count sheet.now (length flags.old) }
    ensures flags { flags.new ≡ flags_after sheet.now ranks.now flags.old }
{
    let Ok(l) = read(sheet) else {
        return 0;
    };
    let positions = part(sheet, l.positions);
    let grid = grid_at(sheet, l);
    let level = level_at(positions.len(), l.start, l.actions, l.delay);
    let kept = Kept {
        positions,
        grid: &grid,
        level,
        ranks,
    };
    let sized = SizedKept { kept: &kept };
    let n = sized.words();
    if flags.len() < n {
        return 0;
    }
    sized.fill_flags(&mut flags[..n]);
    n
}
