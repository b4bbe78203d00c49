// How many nodes and first words there are, and the actions of a word.
ghost use Rattle.std.specs.Prelude.{◌≡◌, ◌*◌, ◌/◌, ◌^◌, ◌≤◌};
ghost use Rattle.theory.specs.Strategy.{initial_length};
ghost use Rattle.theory.specs.Words.{digit};
ghost use Rattle.sheet.specs.code.Steps.{power_to, most_power};

use crate::limits::MOST_POWER;

// A power, or 65,536 where it is more: then no product wraps, for any base and exponent.
#[tactic(auto, using(crate::proofs::SizeLaws::powers))]
pub fn power(base: u8, exponent: usize) -> usize
    ensures { (result ≡ power_to base exponent) × (result ≤ most_power) }
{
    // Not `saturating_pow`: its exponent is a u32, and this one's type may not narrow.
    let mut r = 1;
    for _ in 0..exponent {
        r *= usize::from(base);
        if MOST_POWER < r {
            return MOST_POWER;
        }
    }
    r
}

// How many nodes there are, and how many first words; the power cut off as above. Two functions of a line
// each, no plainer as one with the cases as a parameter.
// The walk's `level_at` takes any number of positions and cuts it off too, and a table's reader has its power already.
pub fn nodes_at(positions: u16, actions: u8, delay: u8) -> usize
    ensures { (result ≡ positions * power_to actions (delay / 2)) × (result ≤ most_power * most_power) }
{
    usize::from(positions) * power(actions, usize::from(delay) / 2)
}

pub fn words_at(actions: u8, delay: u8) -> usize
    ensures { (result ≡ power_to actions (initial_length delay)) × (result ≤ most_power) }
{
    power(actions, usize::from(delay).div_ceil(2))
}

// A number without its last digits in a base; a division by 0 gives 0. By steps and not by `pow`: the power itself may pass every number,
// and a u32 exponent would leave counts out.
#[tactic(auto, using(crate::proofs::SizeLaws::divisions))]
pub fn without_last(n: usize, base: usize, count: usize) -> usize
    ensures { result ≡ n / base ^ count }
{
    let mut rest = n;
    for _ in 0..count {
        rest = rest.checked_div(base).unwrap_or(0);
    }
    rest
}

// Action i of a word of n actions out of `base`, the oldest being 0; past the end it is the newest, and 0 where the word has none.
#[tactic(auto, using(crate::proofs::SizeLaws::digits))]
pub fn digit(base: usize, n: usize, word: usize, i: usize) -> usize
    ensures { result ≡ digit base n word i }
{
    if n == 0 {
        return 0;
    }
    let shown = without_last(word, base, (n - 1).saturating_sub(i));
    shown.checked_rem(base).unwrap_or(shown)
}
