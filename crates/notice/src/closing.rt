// The positions of a notice count as unsafe: the P body in which they do, and whether they all exist.
ghost use Rattle.std.specs.Prelude.{◌≡◌, ◌≤◌, length};
ghost use Rattle.theory.specs.Answer.{accepted};
ghost use Rattle.theory.specs.Closing.{listed};
ghost use Rattle.reader.specs.Reading.{read_answer};
ghost use Rattle.table.specs.TableSheet.{bytes_below};
ghost use Rattle.notice.specs.code.Closed.{closed_byte, closed_after};

use reader::reading::Layout;

// A notice on a game sheet, which was read with this layout.
#[derive(Clone, Copy)]
pub struct Notice<'a> {
    pub sheet: &'a [u8],
    pub layout: Layout,
    pub positions: &'a [u8],
    ghost reads: { read_answer sheet.now ≡ accepted layout },
}

// The P byte of a closed position: as it is where it is unsafe already. By document 01's bytes and not by kinds, as a byte is written.
#[tactic(auto, unfolding(crate::specs::code::Closed::closed_byte))]
fn closed_byte(b: u8) -> u8
    ensures { result ≡ closed_byte b }
{
    match b {
        0 => 1,
        2 => 3,
        _ => b,
    }
}

impl Notice<'_> {
    pub(crate) fn closes(&self, q: usize) -> bool
        ensures { result ≡ listed self.now.positions.now q }
    {
        self.positions.iter().any(|&x| q == usize::from(x))
    }

    // Check 23: is every position below their number?
    pub(crate) fn all_exist(&self) -> bool
        ensures { result ≡ bytes_below self.now.layout.positions.size self.now.positions.now }
    {
        let n = self.layout.positions.size;
        self.positions.iter().all(|&q| usize::from(q) < n)
    }

    // A P body with the positions closed, at the front of a lent buffer.
    #[tactic(auto, unfolding(crate::specs::code::Closed::closed_at), using(crate::proofs::CloseLaws::closing_all))]
    pub(crate) fn fill_closed(&self, p: &[u8], to: &mut [u8])
        requires { length p.now ≤ length to.old }
        ensures { to.new ≡ closed_after p.now self.now.positions.now to.old }
    {
        // by index, which the two slices share; a copy in which the listed ones are closed would be two loops, where the definition goes by
        // position
        for (q, &b) in p.iter().enumerate() {
            to[q] = if self.closes(q) { closed_byte(b) } else { b };
        }
    }
}
