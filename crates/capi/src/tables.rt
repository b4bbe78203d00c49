// Making sheets, reading a table sheet, judging one and posting a notice on one for C and Rust callers. Every function takes any bytes and
// any lengths.
ghost use Rattle.std.specs.Prelude.{◌≡◌};
ghost use Rattle.maker.specs.Making.{made_answer, masks_made, ranks_made, output_made};
ghost use Rattle.table.specs.TableSheet.{table_answer};
ghost use Rattle.judge.specs.Judging.{judge_answer};
ghost use Rattle.notice.specs.Posting.{posted_answer, posted_output};
ghost use Rattle.capi.specs.Exported.{number_for, made_size, made_losing, made_reached, place_after, verdict_after, offender_after};
ghost use Rattle.capi.specs.Exported.{posted_size, posted_remains};

use crate::WINS;
use judge::judging::{Judgement, judge};
use maker::making::{Making, make};
use notice::posting::{Posting, post};
use sheet::form::placed;
use table::reading::read;

// What stands for each verdict of judging in C (LQ_SOUND, LQ_BAD_WORD, LQ_BAD_PAIR).
const SOUND: u8 = 0;

const BAD_WORD: u8 = 1;

const BAD_PAIR: u8 = 2;

#[unsafe(no_mangle)]
#[tactic(auto, unfolding(crate::specs::Exported::by_answer))]
pub extern "C" fn lq_make(
    sheet: &[u8],
    masks: &mut [u8],
    ranks: &mut [u16],
    out: &mut [u8],
    size: &mut usize,
    losing: &mut u8,
    reached: &mut usize,
) -> u8
    ensures number { result
        ≡ number_for (made_answer sheet.now masks.old ranks.old out.old) }
    ensures masks { masks.new
        ≡ masks_made sheet.now masks.old ranks.old out.old }
    ensures ranks { ranks.new
        ≡ ranks_made sheet.now masks.old ranks.old out.old }
    ensures output { out.new
        ≡ output_made sheet.now masks.old ranks.old out.old }
    ensures size { size.new
        ≡ made_size sheet.now masks.old ranks.old out.old size.old }
    ensures losing { losing.new
        ≡ made_losing sheet.now masks.old ranks.old out.old losing.old }
    ensures reached { reached.new
        ≡ made_reached sheet.now masks.old ranks.old out.old reached.old }
{
    match make(sheet, masks, ranks, out) {
        Ok(
            Making::Winning {
                size: length,
                reached: number,
            },
        ) => {
            *size = length;
            *losing = WINS;
            *reached = number;
            0
        }
        Ok(
            Making::Losing {
                delay,
                size: length,
                reached: number,
            },
        ) => {
            *size = length;
            *losing = delay;
            *reached = number;
            0
        }
        Err(refusal) => u8::from(refusal),
    }
}

// The place comes from the contents again: reading promises the masks, and not where they are.
#[unsafe(no_mangle)]
#[tactic(auto, unfolding(crate::specs::Exported::by_answer))]
pub extern "C" fn lq_masks(sheet: &[u8], place: &mut [usize; 2]) -> u8
    ensures number { result ≡ number_for (table_answer sheet.now) }
    ensures place { place.new ≡ place_after sheet.now place.old }
{
    match read(sheet) {
        Ok(_) => {
            let masks = placed(sheet, 2);
            *place = [masks.at, masks.size];
            0
        }
        Err(refusal) => u8::from(refusal),
    }
}

#[unsafe(no_mangle)]
#[tactic(auto, unfolding(crate::specs::Exported::by_answer))]
pub extern "C" fn lq_judge(sheet: &[u8], table: &[u8], verdict: &mut u8, place: &mut usize) -> u8
    ensures number { result ≡ number_for (judge_answer sheet.now table.now) }
    ensures verdict { verdict.new ≡ verdict_after sheet.now table.now verdict.old }
    ensures place { place.new ≡ offender_after sheet.now table.now place.old }
{
    match judge(sheet, table) {
        Ok(Judgement::Sound) => {
            *verdict = SOUND;
            *place = 0;
            0
        }
        Ok(Judgement::BadWord(v)) => {
            *verdict = BAD_WORD;
            *place = v;
            0
        }
        Ok(Judgement::BadNode(k)) => {
            *verdict = BAD_PAIR;
            *place = k;
            0
        }
        Err(refusal) => u8::from(refusal),
    }
}

#[unsafe(no_mangle)]
#[tactic(auto, unfolding(crate::specs::Exported::by_answer))]
pub extern "C" fn lq_post(
    sheet: &[u8],
    table: &[u8],
    notice: &[u8],
    out: &mut [u8],
    size: &mut usize,
    remains: &mut u8,
) -> u8
    ensures number { result
        ≡ number_for (posted_answer sheet.now table.now notice.now out.old) }
    ensures output { out.new
        ≡ posted_output sheet.now table.now notice.now out.old }
    ensures size { size.new
        ≡ posted_size sheet.now table.now notice.now out.old size.old }
    ensures remains { remains.new
        ≡ posted_remains sheet.now table.now notice.now out.old remains.old }
{
    match post(sheet, table, notice, out) {
        Ok(Posting::Posted(n)) => {
            *size = n;
            *remains = 1;
            0
        }
        Ok(Posting::Emptied(n)) => {
            *size = n;
            *remains = 0;
            0
        }
        Err(refusal) => u8::from(refusal),
    }
}
