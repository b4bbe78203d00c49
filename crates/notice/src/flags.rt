// What a notice leaves of the first words: those that were flagged and are still good.
ghost use Rattle.std.specs.Prelude.{◌≡◌, ◌≤◌, length};
ghost use Rattle.notice.specs.code.Left.{start_shut, kept_flag, kept_after, good_flags_by};

use crate::closing::Notice;
use region::words::initial_flags;
use rule::part::fill_marks;
use sheet::limits::MOST_NODES;

// Flags are bytes of 0 and 1, as the W body has them.
#[tactic(auto, unfolding(crate::specs::code::Left::kept_flag, theory::specs::Fold::both))]
fn kept_flag(shut: bool, flag: u8, good: u8) -> u8
    ensures { result ≡ kept_flag shut flag good }
{
    u8::from(flag != 0 && good != 0 && !shut)
}

// The buffer holds the flags of the good words, and then of those that remain.
#[tactic(auto, unfolding(crate::specs::code::Left::kept_flag_at), using(crate::proofs::WordLaws::keeping))]
fn keep_flags(shut: bool, flags: &[u8], good: &mut [u8])
    requires { length flags.now ≤ length good.old }
    ensures { good.new ≡ kept_after shut flags.now good.old }
{
    // by index, which the two slices share: of what a loop writes through `zip` a proof learns nothing
    for (v, &flag) in flags.iter().enumerate() {
        good[v] = kept_flag(shut, flag, good[v]);
    }
}

impl Notice<'_> {
    // Is the start closed, at a delay at which it is passed before the first command? At the others its nodes have no mask.
    #[tactic(auto, unfolding(crate::specs::code::Left::start_shut, theory::specs::Delay::odd, theory::specs::Fold::both))]
    fn start_shut(&self) -> bool
        ensures { result ≡ start_shut self.now.layout.delay self.now.layout.start self.now.positions.now }
    {
        self.layout.delay % 2 == 1 && self.closes(usize::from(self.layout.start))
    }

    // The flags that remain, at the front of a lent buffer, by what the notice leaves of the masks: those of the words that are good where
    // these masks are the kept ones, and the start may be passed.
    pub(crate) fn left_flags(&self, flags: &[u8], left: &[u8], good: &mut [u8])
        requires { length flags.now ≤ length good.old }
        ensures { good.new
            ≡ kept_after (start_shut self.now.layout.delay self.now.layout.start self.now.positions.now) flags.now
            (good_flags_by self.now.sheet.now left.now good.old) }
    {
        let mut marks = [0u16; MOST_NODES];
        fill_marks(left, &mut marks);
        initial_flags(self.sheet, &marks, good);
        keep_flags(self.start_shut(), flags, good);
    }
}
