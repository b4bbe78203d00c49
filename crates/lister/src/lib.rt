// The listing, from the bytes of a sheet to the lines that document 01 prints.
#![tactic(auto)]

ghost use Rattle.std.specs.Prelude.{◌≡◌, ◌/◌, length};
ghost use Rattle.theory.specs.Answer.{accepted};
ghost use Rattle.sheet.specs.Limits.{most_words};
ghost use Rattle.sheet.specs.Refusals.{number_of};
ghost use Rattle.reader.specs.Reading.{read_answer};
ghost use Rattle.text.specs.Lines.{refused_line, head_line};
ghost use Rattle.text.specs.Page.{Puts, Writes};
ghost use Rattle.solver.specs.Solving.{solving, masks_solved, ranks_solved};
ghost use Rattle.theory.specs.Buffer.{over};
ghost use Rattle.io.specs.Counts.{IsPrefixLen};
ghost use Rattle.lister.specs.Listing.{program_text, solved_text, text_with, masks_with, ranks_with};
ghost use Rattle.lister.specs.code.Parts.{flags_in, starts_by, won_by, lost_by};

use reader::reading::{Layout, read};
use region::words::initial_flags;
use sheet::limits::{MOST_NODES, MOST_WORDS};
use sheet::refusal::Refusal;
use sheet::size::nodes_at;
use solver::solve::{Solution, solve};
use text::buffer::Page;
use text::digits::Form;

// The bytes of the longest sheet that the program takes.
pub const MOST_INPUT: usize = 16384;

// The largest text has 463,923 bytes (proofs/ProgramLaws.antt, fits).
pub const MOST_TEXT: usize = 464000;

// Each writer takes the page that it writes and what it writes, as those of text do: a struct of page and sheet would only move them. The
// areas are the caller's and stay slices, as in `solve`.

// The line of a refusal.
fn put_refusal(page: &mut Page, refusal: Refusal)
    ensures { Puts page.old (refused_line (number_of refusal)) page.new }
{
    page.put_refused(usize::from(u8::from(refusal)));
}

// The line with which the text of every game begins.
fn put_head(page: &mut Page, l: Layout)
    ensures { Puts page.old (head_line l.delay l.positions.size l.actions l.reached) page.new }
{
    page.put_head(
        usize::from(l.delay),
        l.positions.size,
        usize::from(l.actions),
        l.reached,
    );
}

// The form of a word of so many actions.
fn form(l: Layout, count: usize) -> Form
    ensures { result ≡ record { actions = l.actions; count = count } }
{
    Form {
        actions: usize::from(l.actions),
        count,
    }
}

// A line for each good first word by the ranks at the asked delay.
#[tactic(auto, using(crate::proofs::Words::words_laws))]
fn put_words(page: &mut Page, sheet: &[u8], l: Layout, ranks: &[u16])
    ensures { Puts page.old (starts_by l (flags_in sheet.now ranks.now most_words)) page.new }
{
    let mut flags = [0u8; MOST_WORDS];
    let n = initial_flags(sheet, ranks, &mut flags);
    let length = usize::from(l.delay).div_ceil(2);
    page.put_starts(form(l, length), &flags[..n]);
}

#[tactic(auto, using(text::proofs::Page::writing), unfolding(crate::specs::Listing::won_text))]
fn put_won(page: &mut Page, sheet: &[u8], l: Layout, masks: &[u8], ranks: &[u16])
    ensures { Puts page.old (won_by l (flags_in sheet.now ranks.now most_words) masks.now) page.new }
{
    put_head(page, l);
    page.put_winning();
    put_words(page, sheet, l, ranks);
    page.put_allows(form(l, usize::from(l.delay) / 2), masks);
}

#[tactic(auto, using(text::proofs::Page::writing), unfolding(crate::specs::Listing::lost_text))]
fn put_lost(page: &mut Page, l: Layout, m: u8, ranks: &[u16])
    ensures { Puts page.old (lost_by l m ranks.now) page.new }
{
    put_head(page, l);
    page.put_losing(usize::from(m));
    page.put_ranks(form(l, usize::from(m) / 2), ranks);
}

// The text of a sheet with this reading: at most 256 positions, so the cast loses nothing.
#[tactic(auto, using(crate::proofs::SolvedLaws::solving), unfolding(crate::specs::Listing::solved_text))]
fn put_game(page: &mut Page, sheet: &[u8], l: Layout, masks: &mut [u8], ranks: &mut [u16])
    requires { read_answer sheet.now ≡ accepted l }
    ensures text { Puts page.old (solved_text sheet.now (solving sheet.now masks.old ranks.old)) page.new }
    ensures masks { masks.new ≡ masks_solved sheet.now masks.old ranks.old }
    ensures ranks { ranks.new ≡ ranks_solved sheet.now masks.old ranks.old }
{
    let positions = l.positions.size as u16;
    match solve(sheet, masks, ranks) {
        Err(refusal) => put_refusal(page, refusal),
        Ok(Solution::Winning(_)) => {
            let nodes = nodes_at(positions, l.actions, l.delay);
            put_won(page, sheet, l, &masks[..nodes], ranks);
        }
        Ok(Solution::Losing(m, _)) => {
            let nodes = nodes_at(positions, l.actions, m);
            put_lost(page, l, m, &ranks[..nodes]);
        }
    }
}

// The text of any sheet. Document 01 has the reading taken apart with let else, and its refusal handed straight on.
#[tactic(auto, using(crate::proofs::InputLaws::long, crate::proofs::InputLaws::refusing, crate::proofs::InputLaws::accepting))]
fn put_sheet(page: &mut Page, sheet: &[u8], masks: &mut [u8], ranks: &mut [u16])
    ensures text { Puts page.old (text_with sheet.now (length masks.old) (length ranks.old)) page.new }
    ensures masks { masks.new ≡ masks_with sheet.now (length ranks.old) masks.old }
    ensures ranks { ranks.new ≡ ranks_with sheet.now (length masks.old) ranks.old }
{
    if MOST_INPUT < sheet.len() {
        return put_refusal(page, Refusal::Contents);
    }
    let reading = read(sheet);
    let Ok(l) = reading else {
        return put_refusal(page, reading.unwrap_err());
    };
    put_game(page, sheet, l, masks, ranks);
}

// What the program prints for a sheet, with lent buffers of any size: what `out` has no room for is left out.
pub fn list(sheet: &[u8], masks: &mut [u8], ranks: &mut [u16], out: &mut [u8]) -> usize
    ensures text { Writes out.old 0
        (text_with sheet.now (length masks.old) (length ranks.old)) out.new result }
    ensures counts { IsPrefixLen result out.new }
    ensures masks { masks.new ≡ masks_with sheet.now (length ranks.old) masks.old }
    ensures ranks { ranks.new ≡ ranks_with sheet.now (length masks.old) ranks.old }
{
    let mut page = Page { out, at: 0 };
    put_sheet(&mut page, sheet, masks, ranks);
    page.at
}

// What the program prints, with buffers that suffice for every sheet: the whole text, and nothing else of `out` is altered.
pub fn list_into(sheet: &[u8], out: &mut [u8; MOST_TEXT]) -> usize
    ensures size { result ≡ length (program_text sheet.now) }
    ensures text { out.new ≡ over (program_text sheet.now) out.old }
    ensures counts { IsPrefixLen result out.new }
{
    let mut masks = [0u8; MOST_NODES];
    let mut ranks = [0u16; MOST_NODES];
    list(sheet, &mut masks, &mut ranks, out)
}
