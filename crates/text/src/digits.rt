// Decimal numbers, words and sets of actions.
#![tactic(auto, using(crate::proofs::Fields::field_laws), unfolding(crate::proofs::Opened::digits_open))]

ghost use Rattle.std.specs.Prelude.{◌≡◌, ◌∷◌, [], ◌/◌, ◌^◌};
ghost use Rattle.theory.specs.Table.{bit};
ghost use Rattle.text.specs.Page.{Puts};
ghost use Rattle.text.specs.Numbers.{glyph, decimal_of};
ghost use Rattle.text.specs.Fields.{word_text, set_text};

use super::buffer::Page;
use itoa::Buffer;
use sheet::size::{digit, without_last};

// The form of a node: out of how many actions its word is, and how many the word has.
#[derive(Clone, Copy)]
pub struct Form {
    pub actions: usize,
    pub count: usize,
}

// The digit of a command's number; it is one byte, so the cast loses nothing.
#[tactic(auto, unfolding(crate::specs::Numbers::glyph))]
fn glyph_of(d: usize) -> u8
    ensures { result ≡ glyph d }
{
    u32::try_from(d)
        .ok()
        .and_then(|d| char::from_digit(d, 32))
        .map_or(b'?', |glyph| glyph as u8)
}

impl Form {
    // The position of a node: its number without its word.
    pub(crate) fn position(self, node: usize) -> usize
        ensures { result ≡ node / self.actions ^ self.count }
    {
        without_last(node, self.actions, self.count)
    }
}

#[tactic(auto, unfolding(theory::specs::Table::bit))]
fn has_action(mask: usize, c: usize) -> bool
    ensures { result ≡ bit mask c }
{
    without_last(mask, 2, c) % 2 == 1
}

impl Page<'_> {
    fn put_glyph(&mut self, d: usize)
        ensures { Puts self.old (glyph d ∷ []) self.new }
    {
        self.put_byte(glyph_of(d));
    }

    // Not `write!`: it promises its text only where it answers Ok, and these can't fail.
    pub fn put_number(&mut self, n: usize)
        ensures { Puts self.old (decimal_of n) self.new }
    {
        let mut buffer = Buffer::new();
        self.put_text(buffer.format(n).as_bytes());
    }

    // A word, oldest action first.
    pub fn put_word(&mut self, form: Form, word: usize)
        ensures { Puts self.old (word_text form.actions form.count word) self.new }
    {
        if form.count == 0 {
            return self.put_byte(b'-');
        }
        // by a page of its own, as put_text
        let mut page = Page {
            out: &mut *self.out,
            at: self.at,
        };
        for i in 0..form.count {
            page.put_glyph(digit(form.actions, form.count, word, i));
        }
        self.at = page.at;
    }

    // The actions of a mask, rising.
    pub fn put_set(&mut self, actions: usize, mask: usize)
        ensures { Puts self.old (set_text actions mask) self.new }
    {
        // by a page of its own, as put_text
        let mut page = Page {
            out: &mut *self.out,
            at: self.at,
        };
        for c in 0..actions {
            if has_action(mask, c) {
                page.put_glyph(c);
            }
        }
        self.at = page.at;
    }
}
