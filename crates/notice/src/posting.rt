// Posting a closing notice on a table sheet: refusals 1 to 7, 10, 11, 21, 23 and 9; then the sheet of what it leaves.
ghost use Rattle.std.specs.Prelude.{◌≡◌, ◌≤◌, ◌<◌, length};
ghost use Rattle.theory.specs.Buffer.{over};
ghost use Rattle.sheet.specs.Refusals.{answer_by};
ghost use Rattle.writer.specs.SheetBytes.{table_bytes};
ghost use Rattle.notice.specs.Posting.{sheet_with, posted_answer, posted_output, written_by};
ghost use Rattle.notice.specs.code.Left.{left_of, numbers_of, Postable, written_with, written_left};

use crate::closing::Notice;
use judge::judging::layouts_agree;
use reader::reading::read;
use sheet::form::part;
use sheet::limits::{MOST_NODES, MOST_WORDS};
use sheet::refusal::Refusal;
use table::reading::{TableLayout, read_shape, some_flagged};
use writer::writing::{TABLE_START, put_table_sheet};

// The length of the sheet that was written: with a first word that remains, or with none. Neither is an error, so it is no Result.
#[derive(Clone, Copy, Debug, PartialEq, Eq)]
pub enum Posting {
    Posted(usize),
    Emptied(usize),
}

// The sheet with the numbers of the one that was given and these bodies.
fn write_left(x: TableLayout, flags: &[u8], masks: &[u8], out: &mut [u8]) -> Posting
    requires { (length (table_bytes (numbers_of x) flags.now masks.now) < 65536)
        × (length (table_bytes (numbers_of x) flags.now masks.now) ≤ length out.old) }
    ensures { (written_by result ≡ written_with flags.now (length (table_bytes (numbers_of x) flags.now masks.now)))
        × (out.new ≡ over (table_bytes (numbers_of x) flags.now masks.now) out.old) }
{
    let h = [x.start, x.actions, x.delay, x.highest];
    let size = put_table_sheet(out, &h, flags, masks);
    if some_flagged(flags) {
        Posting::Posted(size)
    } else {
        Posting::Emptied(size)
    }
}

impl Notice<'_> {
    // Posting once every check has passed.
    fn post_bodies(&self, x: TableLayout, flags: &[u8], masks: &[u8], out: &mut [u8]) -> Posting
        requires { Postable self.now.sheet.now self.now.layout x flags.now masks.now (length out.old) }
        ensures { (written_by result ≡ written_left self.now.sheet.now self.now.positions.now flags.now masks.now)
            × (out.new
            ≡ over
            (sheet_with self.now.sheet.now (left_of self.now.sheet.now self.now.positions.now flags.now masks.now))
            out.old) }
    {
        let mut good = [0u8; MOST_WORDS];
        let mut left = [0u8; MOST_NODES];
        self.left_masks(masks, &mut left);
        let left = &left[..masks.len()];
        self.left_flags(flags, left, &mut good);
        write_left(x, &good[..flags.len()], left, out)
    }
}

// Posting, for any two sheets, any notice and any output.
#[tactic(auto, using(crate::proofs::PostLaws::posted))]
pub fn post(sheet: &[u8], table: &[u8], notice: &[u8], out: &mut [u8]) -> Result<Posting, Refusal>
    ensures answer { answer_by written_by result
        ≡ posted_answer sheet.now table.now notice.now out.old }
    ensures output { out.new
        ≡ posted_output sheet.now table.now notice.now out.old }
{
    let l = read(sheet)?;
    let x = read_shape(table)?;
    if !layouts_agree(l, x) {
        return Err(Refusal::Mismatch);
    }
    let closing = Notice {
        sheet,
        layout: l,
        positions: notice,
    };
    if !closing.all_exist() {
        return Err(Refusal::NoSuchPosition);
    }
    let flags = part(table, x.flags);
    let masks = part(table, x.masks);
    if out.len() < TABLE_START + flags.len() + masks.len() {
        return Err(Refusal::Output);
    }
    Ok(closing.post_bodies(x, flags, masks, out))
}
