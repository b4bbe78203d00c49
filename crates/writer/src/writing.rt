// The bytes of table sheets and rank sheets, from the front of a lent buffer: what it has no room for is left out, and a sheet that
// two bytes cannot measure is not written at all. The number answered is that of the bytes written.
#![tactic(auto, using(crate::proofs::WriteLaws::sheet_laws), unfolding(text::specs::Page::puts))]

ghost use Rattle.std.specs.Prelude.{◌∷◌, ◌++◌, ◌+◌, ◌≤◌, length};
ghost use Rattle.theory.specs.Bytes.{bytes_of};
ghost use Rattle.sheet.specs.Limits.{width};
ghost use Rattle.text.specs.Page.{Puts, Writes};
ghost use Rattle.writer.specs.SheetBytes.{table_bytes, rank_bytes, written_sheet};
ghost use Rattle.writer.specs.code.Room.{table_room, rank_room};

use sheet::limits::ENTRY;
use text::buffer::Page;

// The largest number of two bytes.
const MOST_SHEET: usize = 65535;

// The bytes of a table sheet's contents, and how many they leave for its bodies.
const TABLE_CONTENTS: usize = 3 * ENTRY;

const TABLE_ROOM: usize = MOST_SHEET - TABLE_CONTENTS;

// The contents and the S body of a table sheet.
pub const TABLE_START: usize = TABLE_CONTENTS + 4;

// The bytes of a rank sheet's contents, and how many they leave for its bodies.
const RANK_CONTENTS: usize = 2 * ENTRY;

const RANK_ROOM: usize = MOST_SHEET - RANK_CONTENTS;

// An entry of the contents.
fn put_entry(page: &mut Page, letter: u8, offset: usize, size: usize)
    ensures { Puts page.old (letter ∷ (bytes_of 2 offset ++ bytes_of 2 size)) page.new }
{
    page.put_byte(letter);
    page.put_bytes2(offset);
    page.put_bytes2(size);
}

fn put_table(page: &mut Page, h: &[u8], w: &[u8], t: &[u8])
    requires { length h.now + length w.now + length t.now ≤ table_room }
    ensures { Puts page.old (table_bytes h.now w.now t.now) page.new }
{
    let flags_at = TABLE_CONTENTS + h.len();
    let masks_at = flags_at + w.len();
    put_entry(page, b'S', TABLE_CONTENTS, h.len());
    put_entry(page, b'W', flags_at, w.len());
    put_entry(page, b'T', masks_at, t.len());
    page.put_text(h);
    page.put_text(w);
    page.put_text(t);
}

// A table sheet with these S, W and T bodies. A rank sheet has a function like this one below: what they write, the bodies whose lengths
// they add, and the room differ, so that as one they would be no plainer.
pub fn put_table_sheet(out: &mut [u8], h: &[u8], w: &[u8], t: &[u8]) -> usize
    ensures { Writes out.old 0
        (written_sheet width (table_bytes h.now w.now t.now)) out.new result }
{
    let mut page = Page { out, at: 0 };
    if h.len().saturating_add(w.len()).saturating_add(t.len()) <= TABLE_ROOM {
        put_table(&mut page, h, w, t);
    }
    page.at
}

fn put_ranks(page: &mut Page, h: &[u8], ranks: &[u16])
    requires { length h.now + length ranks.now + length ranks.now ≤ rank_room }
    ensures { Puts page.old (rank_bytes h.now ranks.now) page.new }
{
    put_entry(page, b'S', RANK_CONTENTS, h.len());
    put_entry(page, b'R', RANK_CONTENTS + h.len(), 2 * ranks.len());
    page.put_text(h);
    page.put_shorts(ranks);
}

// A rank sheet with this S body and these ranks.
pub fn put_rank_sheet(out: &mut [u8], h: &[u8], ranks: &[u16]) -> usize
    ensures { Writes out.old 0
        (written_sheet width (rank_bytes h.now ranks.now)) out.new result }
{
    let mut page = Page { out, at: 0 };
    if h.len()
        .saturating_add(ranks.len())
        .saturating_add(ranks.len())
        <= RANK_ROOM
    {
        put_ranks(&mut page, h, ranks);
    }
    page.at
}
