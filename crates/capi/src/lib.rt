// Reading and solving for C and Rust callers (include/loquatquoits.h). Every function takes any bytes and any lengths.
#![tactic(auto)]

pub mod tables; // making sheets, the masks of a table sheet, judging one, and posting a notice on one
pub mod control; // opening, observing and acting

ghost use Rattle.std.specs.Prelude.{◌≡◌};
ghost use Rattle.reader.specs.Reading.{read_answer};
ghost use Rattle.solver.specs.Solving.{solving, masks_solved, ranks_solved};
ghost use Rattle.capi.specs.Exported.{number_for, header_after, places_after, read_reached, read_holding, losing_after, solved_reached};

use reader::reading::read;
use solver::solve::{Solution, solve};

// What stands for the losing delay where the asked one wins (LQ_WINS).
pub(crate) const WINS: u8 = 255;

#[unsafe(no_mangle)]
#[tactic(auto, unfolding(crate::specs::Exported::by_answer))]
pub extern "C" fn lq_read(
    sheet: &[u8],
    header: &mut [u8; 3],
    places: &mut [usize; 8],
    reached: &mut usize,
    holding: &mut u8,
) -> u8
    ensures number { result ≡ number_for (read_answer sheet.now) }
    ensures header { header.new ≡ header_after sheet.now header.old }
    ensures places { places.new ≡ places_after sheet.now places.old }
    ensures reached { reached.new ≡ read_reached sheet.now reached.old }
    ensures holding { holding.new ≡ read_holding sheet.now holding.old }
{
    match read(sheet) {
        Ok(l) => {
            *header = [l.start, l.actions, l.delay];
            *places = [
                l.header.at,
                l.header.size,
                l.positions.at,
                l.positions.size,
                l.targets.at,
                l.targets.size,
                l.moves.at,
                l.moves.size,
            ];
            *reached = l.reached;
            *holding = u8::from(l.holding);
            0
        }
        Err(refusal) => u8::from(refusal),
    }
}

#[unsafe(no_mangle)]
#[tactic(auto, unfolding(crate::specs::Exported::by_answer))]
pub extern "C" fn lq_solve(
    sheet: &[u8],
    masks: &mut [u8],
    ranks: &mut [u16],
    losing: &mut u8,
    reached: &mut usize,
) -> u8
    ensures number { result ≡ number_for (solving sheet.now masks.old ranks.old) }
    ensures masks { masks.new ≡ masks_solved sheet.now masks.old ranks.old }
    ensures ranks { ranks.new ≡ ranks_solved sheet.now masks.old ranks.old }
    ensures losing { losing.new
        ≡ losing_after sheet.now masks.old ranks.old losing.old }
    ensures reached { reached.new
        ≡ solved_reached sheet.now masks.old ranks.old reached.old }
{
    match solve(sheet, masks, ranks) {
        Ok(Solution::Winning(l)) => {
            *losing = WINS;
            *reached = l.reached;
            0
        }
        Ok(Solution::Losing(m, l)) => {
            *losing = m;
            *reached = l.reached;
            0
        }
        Err(refusal) => u8::from(refusal),
    }
}
