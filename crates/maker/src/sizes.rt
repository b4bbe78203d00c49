// The layout of a sheet that was read, and what its numbers come to: how many nodes there are, the S body, and checks 8 and 9.
ghost use Rattle.std.specs.Prelude.{◌≡◌, ◌*◌, ◌≤◌};
ghost use Rattle.sheet.specs.Limits.{most_positions, most_actions, most_delay, most_words};
ghost use Rattle.sheet.specs.Refusals.{answer_of};
ghost use Rattle.maker.specs.code.Checked.{nodes_at, words_at, header_bytes, room_answer};

use reader::reading::Layout;
use sheet::refusal::Refusal;
use sheet::size::{nodes_at, words_at};
use writer::writing::TABLE_START;

// Checks 2 and 3 leave its numbers small, so that the casts below lose nothing.
#[derive(Clone, Copy)]
pub(crate) struct SmallLayout {
    pub layout: Layout,
    ghost some_position: { 1 ≤ layout.positions.size },
    ghost few_positions: { layout.positions.size ≤ most_positions },
    ghost few_actions: { layout.actions ≤ most_actions },
    ghost short_delay: { layout.delay ≤ most_delay },
}

impl SmallLayout {
    // How many nodes there are at delay m.
    #[tactic(auto, using(sheet::proofs::SizeLaws::nodes_small, sheet::proofs::SizeLaws::nodes_few))]
    pub(crate) fn nodes(self, m: u8) -> usize
        requires { m ≤ most_delay }
        ensures counted { result ≡ nodes_at self.layout m }
        ensures few { result ≤ most_positions * most_words }
    {
        nodes_at(self.layout.positions.size as u16, self.layout.actions, m)
    }

    // The S body at delay m. Four bytes and no conversion `From`, here as in notice: the numbers come from different structs.
    #[tactic(auto, unfolding(crate::specs::code::Checked::header_bytes))]
    pub(crate) fn header(self, m: u8) -> [u8; 4]
        ensures { result ≡ header_bytes self.layout m }
    {
        let Layout { start, actions, .. } = self.layout;
        let highest = (self.layout.positions.size - 1) as u8;
        [start, actions, m, highest]
    }

    // Checks 8 and 9.
    #[tactic(auto, using(crate::proofs::RoomLaws::rooms))]
    pub(crate) fn check_room(self, masks: usize, ranks: usize, out: usize) -> Result<(), Refusal>
        ensures { answer_of result
            ≡ room_answer (nodes_at self.layout self.layout.delay) (words_at self.layout) masks ranks out }
    {
        let Layout { actions, delay, .. } = self.layout;
        let nodes = self.nodes(delay);
        if masks.min(ranks) < nodes {
            return Err(Refusal::Buffers);
        }
        if out < TABLE_START + words_at(actions, delay) + 2 * nodes {
            return Err(Refusal::Output);
        }
        Ok(())
    }
}
