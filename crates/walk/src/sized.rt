// What stands behind the tests of the public functions: an arena whose level is small enough to walk, and a node of it that exists. A node
// is a number, and most functions ask for one that exists: a type would say no more than this bound. Where all actions of one node are
// looked at, it is taken apart once.
ghost use Rattle.std.specs.Prelude.{◌≡◌, ◌-◌, ◌/◌, ◌%◌, ◌^◌, ◌<◌, IfSome, is_some, length};
ghost use Rattle.walk.specs.code.Nodes.{Sized, is_node};

use crate::arena::Arena;

#[derive(Clone, Copy)]
pub struct SizedArena<'a> {
    pub arena: &'a Arena<'a>,
    pub ghost fits: { Sized (length arena.now.positions.now) arena.now.level },
}

// Node k, which exists: its position q, and its pending word w.
#[derive(Clone, Copy)]
pub struct SizedNode<'a> {
    pub sized: &'a SizedArena<'a>,
    pub k: usize,
    pub q: usize,
    pub w: usize,
    pub ghost exists: { k < sized.now.arena.now.level.nodes },
    pub ghost position: { q ≡ k / sized.now.arena.now.level.words },
    pub ghost word: { w ≡ k % sized.now.arena.now.level.words },
}

impl SizedArena<'_> {
    // Node k, which exists, taken apart. Inlined, here and in `node`, so that what is done with the node sees its numbers.
    #[inline(always)]
    pub(crate) fn apart(&self, k: usize) -> SizedNode<'_>
        requires { k < self.now.arena.now.level.nodes }
        ensures { (result.sized.now ≡ self.now) × (result.k ≡ k) }
    {
        let words = self.arena.level.words;
        SizedNode {
            sized: self,
            k,
            q: k / words,
            w: k % words,
        }
    }

    // The same of any number; none where there is no such node.
    #[inline(always)]
    #[tactic(auto, unfolding(crate::specs::code::Nodes::is_node, theory::specs::Fold::both), using(crate::proofs::NodeLaws::guarding))]
    pub fn node(&self, k: usize) -> Option<SizedNode<'_>>
        ensures exists { is_some result ≡ is_node (length self.now.arena.now.positions.now) self.now.arena.now.level k }
        ensures same { IfSome result (λ x. (x.sized.now ≡ self.now) × (x.k ≡ k)) }
    {
        if !self.arena.level.is_node(self.arena.positions.len(), k) {
            return None;
        }
        Some(self.apart(k))
    }

    // The mask of all actions. There are at most 8, so the cast loses nothing.
    pub fn full_mask(&self) -> u8
        ensures { result ≡ 2 ^ self.now.arena.now.level.actions - 1 }
    {
        ((1usize << self.arena.level.actions) - 1) as u8
    }
}
