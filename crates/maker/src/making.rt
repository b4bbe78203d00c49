// Making a sheet from a game sheet: document 01's refusals 1 to 9, then the table sheet or the rank sheet.
ghost use Rattle.std.specs.Prelude.{◌≡◌, ◌≤◌, length, take};
ghost use Rattle.sheet.specs.Limits.{most_delay, most_nodes, most_words};
ghost use Rattle.sheet.specs.Bodies.{delay_of};
ghost use Rattle.sheet.specs.Refusals.{answer_by};
ghost use Rattle.sheet.specs.SheetGame.{game_of};
ghost use Rattle.text.specs.Page.{Writes};
ghost use Rattle.solver.specs.Solving.{masks_solved, ranks_solved};
ghost use Rattle.writer.specs.SheetBytes.{rank_bytes};
ghost use Rattle.maker.specs.Making.{table_sheet_of, measured_by, made_answer, masks_made, ranks_made, output_made};
ghost use Rattle.maker.specs.code.Checked.{nodes_at, header_bytes, Ready, HasTable};

use crate::sizes::SmallLayout;
use reader::reading::read;
use region::words::initial_flags;
use sheet::limits::MOST_WORDS;
use sheet::refusal::Refusal;
use solver::solve::{Solution, solve};
use writer::writing::{put_rank_sheet, put_table_sheet};

// The length of the sheet that was written and the number of reached positions, with the losing delay where it is a rank sheet. The cases
// have document 01's names.
#[derive(Clone, Copy, Debug, PartialEq, Eq)]
pub enum Making {
    Winning {
        size: usize,
        reached: usize,
    },
    Losing {
        delay: u8,
        size: usize,
        reached: usize,
    },
}

// The rank sheet at delay m.
#[tactic(auto, using(crate::proofs::WrittenLaws::rank_sheets))]
fn write_ranks(small: SmallLayout, m: u8, ranks: &[u16], out: &mut [u8]) -> usize
    requires { (m ≤ most_delay) × (nodes_at small.layout m ≤ most_nodes) × (nodes_at small.layout m ≤ length ranks.now) }
    ensures { Writes out.old 0 (rank_bytes (header_bytes small.layout m) (take (nodes_at small.layout m) ranks.now))
        out.new result }
{
    let nodes = small.nodes(m);
    let h = small.header(m);
    put_rank_sheet(out, &h, &ranks[..nodes])
}

// The table sheet at the asked delay.
#[tactic(auto, using(crate::proofs::WrittenLaws::table_sheets))]
fn write_table(
    sheet: &[u8],
    small: SmallLayout,
    masks: &[u8],
    ranks: &[u16],
    out: &mut [u8],
) -> usize
    requires { HasTable sheet.now small.layout masks.now ranks.now }
    ensures { Writes out.old 0 (table_sheet_of (game_of sheet.now) (delay_of sheet.now))
        out.new result }
{
    let delay = small.layout.delay;
    let nodes = small.nodes(delay);
    let mut flags = [0u8; MOST_WORDS];
    let words = initial_flags(sheet, ranks, &mut flags);
    let h = small.header(delay);
    put_table_sheet(out, &h, &flags[..words], &masks[..nodes])
}

// Solving and writing, once every check has passed. The areas are the caller's and stay slices, as in `solve`.
fn make_read(
    sheet: &[u8],
    small: SmallLayout,
    masks: &mut [u8],
    ranks: &mut [u16],
    out: &mut [u8],
) -> Result<Making, Refusal>
    requires { Ready sheet.now small.layout (length masks.old) (length ranks.old) (length out.old) }
    ensures answer { answer_by measured_by result
        ≡ made_answer sheet.now masks.old ranks.old out.old }
    ensures masks { masks.new ≡ masks_solved sheet.now masks.old ranks.old }
    ensures ranks { ranks.new ≡ ranks_solved sheet.now masks.old ranks.old }
    ensures output { out.new
        ≡ output_made sheet.now masks.old ranks.old out.old }
{
    let solution = solve(sheet, masks, ranks)?;
    let reached = small.layout.reached;
    match solution {
        Solution::Winning(_) => {
            let size = write_table(sheet, small, masks, ranks, out);
            Ok(Making::Winning { size, reached })
        }
        Solution::Losing(delay, _) => {
            let size = write_ranks(small, delay, ranks, out);
            Ok(Making::Losing {
                delay,
                size,
                reached,
            })
        }
    }
}

// Making: the answer, the areas as in solving, and the sheet in `out`. Document 01 has the reading taken apart with let else, and
// its refusal handed straight on.
pub fn make(
    sheet: &[u8],
    masks: &mut [u8],
    ranks: &mut [u16],
    out: &mut [u8],
) -> Result<Making, Refusal>
    ensures answer { answer_by measured_by result
        ≡ made_answer sheet.now masks.old ranks.old out.old }
    ensures masks { masks.new
        ≡ masks_made sheet.now masks.old ranks.old out.old }
    ensures ranks { ranks.new
        ≡ ranks_made sheet.now masks.old ranks.old out.old }
    ensures output { out.new
        ≡ output_made sheet.now masks.old ranks.old out.old }
{
    let reading = read(sheet);
    let Ok(layout) = reading else {
        return Err(reading.unwrap_err());
    };
    let small = SmallLayout { layout };
    small.check_room(masks.len(), ranks.len(), out.len())?;
    make_read(sheet, small, masks, ranks, out)
}
