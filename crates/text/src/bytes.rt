// Bytes, slices of bytes and numbers of two bytes.
#![tactic(auto, using(crate::proofs::Page::writing), unfolding(crate::proofs::Opened::bytes_open))]

ghost use Rattle.std.specs.Prelude.{◌∷◌, []};
ghost use Rattle.text.specs.Page.{Puts};
ghost use Rattle.text.specs.Numbers.{shorts_text};
ghost use Rattle.theory.specs.Bytes.{bytes_of};

use super::buffer::Page;

impl Page<'_> {
    #[tactic(auto, unfolding(crate::specs::Page::put, crate::specs::Page::puts))]
    pub fn put_byte(&mut self, byte: u8)
        ensures { Puts self.old (byte ∷ []) self.new }
    {
        if self.at < self.out.len() {
            self.out[self.at] = byte;
            self.at += 1;
        }
    }

    // Copies a slice, byte by byte, so that nobody reckons how many fit.
    pub fn put_text(&mut self, text: &[u8])
        ensures { Puts self.old text.now self.new }
    {
        // by a page of its own, so that the loop keeps the place in a register
        let mut page = Page {
            out: &mut *self.out,
            at: self.at,
        };
        for &byte in text {
            page.put_byte(byte);
        }
        self.at = page.at;
    }

    // The lowest two bytes of a number, low byte first.
    pub fn put_bytes2(&mut self, n: usize)
        ensures { Puts self.old (bytes_of 2 n) self.new }
    {
        let [low, high, ..] = n.to_le_bytes();
        self.put_byte(low);
        self.put_byte(high);
    }

    // Every entry of a slice in two bytes, low byte first.
    pub fn put_shorts(&mut self, numbers: &[u16])
        ensures { Puts self.old (shorts_text numbers.now) self.new }
    {
        for &number in numbers {
            self.put_bytes2(usize::from(number));
        }
    }
}
