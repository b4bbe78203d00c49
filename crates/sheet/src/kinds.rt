// What the byte of a position in the P body says. Every function is total: a position that does not exist is of no kind.
ghost use Rattle.std.specs.Prelude.{◌≡◌};
ghost use Rattle.sheet.specs.Kinds.{kind_of, kind_at, controller_at, environment_at, safe_at};
ghost use Rattle.theory.specs.Delay.{on_right};

// Whose position it is, and whether it is safe.
#[derive(Clone, Copy, Debug, PartialEq, Eq)]
pub struct Kind {
    pub controller: bool,
    pub safe: bool,
}

// Side and safety by a P byte, as document 01 matches on it; there is none above 3. An `Option` and no `TryFrom`, since nobody asks why a
// byte is of no kind.
#[tactic(auto, unfolding(crate::specs::Kinds::kind_of))]
pub fn kind_of(b: u8) -> Option<Kind>
    ensures { result ≡ kind_of b }
{
    match b {
        0 => Some(Kind {
            controller: true,
            safe: true,
        }),
        1 => Some(Kind {
            controller: true,
            safe: false,
        }),
        2 => Some(Kind {
            controller: false,
            safe: true,
        }),
        3 => Some(Kind {
            controller: false,
            safe: false,
        }),
        4..=255 => None,
    }
}

#[tactic(auto, unfolding(crate::specs::Kinds::kind_at))]
pub fn kind_at(p: &[u8], q: usize) -> Option<Kind>
    ensures { result ≡ kind_at p.now q }
{
    p.get(q).and_then(|&b| kind_of(b))
}

#[tactic(auto, unfolding(crate::specs::Kinds::controller_at, crate::specs::Kinds::is_controller))]
pub fn controller_at(p: &[u8], q: usize) -> bool
    ensures { result ≡ controller_at p.now q }
{
    kind_at(p, q).is_some_and(|kind| kind.controller)
}

#[tactic(auto, unfolding(crate::specs::Kinds::environment_at, crate::specs::Kinds::is_environment))]
pub fn environment_at(p: &[u8], q: usize) -> bool
    ensures { result ≡ environment_at p.now q }
{
    kind_at(p, q).is_some_and(|kind| !kind.controller)
}

#[tactic(auto, unfolding(crate::specs::Kinds::safe_at, crate::specs::Kinds::is_safe))]
pub fn safe_at(p: &[u8], q: usize) -> bool
    ensures { result ≡ safe_at p.now q }
{
    kind_at(p, q).is_some_and(|kind| kind.safe)
}

// Is this position of the side whose nodes can fall: the controller's at even delays, the environment's at odd ones?
#[tactic(auto, unfolding(theory::specs::Delay::on_right))]
pub fn on_right(p: &[u8], odd: bool, q: usize) -> bool
    ensures { result ≡ on_right odd (controller_at p.now) q }
{
    controller_at(p, q) != odd
}
