// The chains of places 0, 1, .. by their keys: a chain leads from the last place that has its key to the one before. A link is a
// place + 1, and 0 is the end: an Option of a u16 would take twice the stack, and one of a NonZero be a place + 1 all the same. N is below 65,535, so that a link is cast without a loss. All
// chains share one array of links: memory is fixed, and a slice or a map for each key would need room for every place.
ghost use Rattle.std.specs.Prelude.{◌≡◌, ℕ, ◌+◌, ◌<◌, ◌≤◌, IfSome, length, get_or, set};
ghost use Rattle.std.specs.Iterator.{YieldsFirst, at_most};
ghost use Rattle.solver.specs.code.Sizes.{largest16};
ghost use Rattle.solver.specs.code.Chains.{Linked, Unlinked, chain, head_of};

use sheet::limits::INDEX;

// At most N places.
#[derive(Drop)]
pub(crate) struct Chain<const N: usize> {
    pub(crate) heads: [u16; INDEX],
    pub(crate) links: [u16; N],
    ghost heads_end: { (x : _) → get_or heads x 0 ≤ N },
    ghost links_end: { (i : _) → get_or links i 0 ≤ i },
    ghost whole: { length links ≡ N },
    ghost few: { N < largest16 },
}

impl<const N: usize> Chain<N> {
    // No place yet.
    pub(crate) fn new() -> Chain<N>
        requires { N < largest16 }
        ensures { Unlinked result.heads result.links }
    {
        let heads = [0; INDEX];
        let links = [0; N];
        Chain { heads, links }
    }

    // Places 0 to n - 1, by their keys, where there is no place yet.
    pub(crate) fn link<K: Fn(usize) -> usize>(&mut self, n: usize, key: K)
        requires empty { Unlinked self.old.heads self.old.links }
        requires room { n ≤ N }
        requires callable { (i : _) → i < n → K.pre key i }
        ensures { (f : ℕ → ℕ) → ((i r : ℕ) → i < n → K.post key i r → r ≡ f i) → Linked f n self.new.heads self.new.links }
    {
        for i in 0..n {
            self.push(i, key(i));
        }
    }

    // Place i has key x, and goes in front of its chain. A key that there cannot be has none.
    fn push(&mut self, i: usize, x: usize)
        requires { (i < N) × ((y : _) → get_or self.old.heads y 0 ≤ i) }
        ensures heads { self.new.heads ≡ set self.old.heads x (i + 1) }
        ensures links { self.new.links ≡ set self.old.links i (get_or self.old.heads x 0) }
        ensures below { (y : _) → get_or self.new.heads y 0 ≤ i + 1 }
    {
        if INDEX <= x {
            self.links[i] = 0;
            return;
        }
        self.links[i] = self.heads[x];
        self.heads[x] = (i + 1) as u16;
    }

    // The places with key x.
    #[tactic(auto, unfolding(crate::specs::code::Chains::head_of))]
    pub(crate) fn places(&self, x: usize) -> Places<'_, N>
        ensures { (result.links.now ≡ self.now.links) × (result.at ≡ head_of self.now.heads x) }
    {
        let at = self.heads.get(x).map_or(0, |e| usize::from(*e));
        Places {
            links: &self.links,
            at,
        }
    }
}

// What is left of a chain, from a link on.
#[derive(Drop)]
pub(crate) struct Places<'a, const N: usize> {
    links: &'a [u16; N],
    at: usize,
    ghost links_end: { (i : _) → get_or links.now i 0 ≤ i },
    ghost inside: { at ≤ N },
    ghost few: { N < largest16 },
}

impl<const N: usize> Iterator for Places<'_, N> {
    type Item = usize;

    ghost next_gives = { λ s r t. YieldsFirst (λ s. chain s.links.now s.at) s r t × IfSome r (λ i. i < N) };

    ghost remaining = { λ s. at_most s.at };

    #[tactic(auto, using(crate::proofs::ChainLaws::chain_done, crate::proofs::ChainLaws::chain_step))]
    fn next(&mut self) -> Option<usize> {
        let i = self.at.checked_sub(1)?;
        self.at = usize::from(self.links[i]);
        Some(i)
    }
}
