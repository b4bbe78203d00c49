// The lines of the listing, and the writers of many lines. Lines are put together by methods and not by `write!`, which promises its text
// only where it answers Ok.
#![tactic(auto, using(crate::proofs::Lines::line_laws), unfolding(crate::proofs::Opened::lines_open))]

ghost use Rattle.std.specs.Prelude.{ℕ, List};
ghost use Rattle.text.specs.Page.{Puts, texts_of};
ghost use Rattle.text.specs.Fields.{field_text, node_text};
ghost use Rattle.text.specs.Lines.{field_line, refused_line, losing_line, winning_line, head_line, start_line, allow_line, rank_line};
ghost use Rattle.text.specs.Lines.{start_lines, allow_lines, rank_lines};

use super::buffer::Page;
use super::digits::Form;

impl Page<'_> {
    fn put_field(&mut self, name: &[u8], n: usize)
        ensures { Puts self.old (field_text name.now n) self.new }
    {
        self.put_text(name);
        self.put_number(n);
    }

    fn put_field_line(&mut self, name: &[u8], n: usize)
        ensures { Puts self.old (field_line name.now n) self.new }
    {
        self.put_field(name, n);
        self.put_byte(b'\n');
    }

    pub fn put_refused(&mut self, number: usize)
        ensures { Puts self.old (refused_line number) self.new }
    {
        self.put_field_line(b"refused ", number);
    }

    pub fn put_losing(&mut self, delay: usize)
        ensures { Puts self.old (losing_line delay) self.new }
    {
        self.put_field_line(b"losing ", delay);
    }

    pub fn put_winning(&mut self)
        ensures { Puts self.old winning_line self.new }
    {
        self.put_text(b"winning\n");
    }

    pub fn put_head(&mut self, delay: usize, positions: usize, actions: usize, reached: usize)
        ensures { Puts self.old (head_line delay positions actions reached) self.new }
    {
        self.put_field(b"lag ", delay);
        self.put_field(b" positions ", positions);
        self.put_field(b" commands ", actions);
        self.put_field_line(b" reached ", reached);
    }

    pub fn put_start(&mut self, form: Form, word: usize)
        ensures { Puts self.old (start_line form.actions form.count word) self.new }
    {
        self.put_text(b"start ");
        self.put_word(form, word);
        self.put_byte(b'\n');
    }

    // Of the node's number the last digits are its word, so `put_word` is given the number itself.
    fn put_node(&mut self, form: Form, node: usize)
        ensures { Puts self.old (node_text form.actions form.count node) self.new }
    {
        self.put_field(b"pair ", form.position(node));
        self.put_byte(b' ');
        self.put_word(form, node);
    }

    pub fn put_allow(&mut self, form: Form, node: usize, mask: usize)
        ensures { Puts self.old (allow_line form.actions form.count node mask) self.new }
    {
        self.put_node(form, node);
        self.put_text(b" allow ");
        self.put_set(form.actions, mask);
        self.put_byte(b'\n');
    }

    pub fn put_rank(&mut self, form: Form, node: usize, rank: usize)
        ensures { Puts self.old (rank_line form.actions form.count node rank) self.new }
    {
        self.put_node(form, node);
        self.put_field_line(b" rank ", rank);
    }

    // What `put` writes of each entry and its number.
    #[tactic(auto, using(crate::proofs::Page::writing))]
    fn put_lines<T: Copy + Drop, F: Fn(&mut Page, usize, T)>(&mut self, entries: &[T], put: F)
        ghost line: { ℕ → T → List ℕ }
        requires callable { F.IsAlwaysCallable put }
        requires writes { (p : _) (k : ℕ) (x : T) (q : _) → F.post put p k x tt q
            → Puts p.now (line k x) q.now }
        ensures { Puts self.old (texts_of line 0 entries.now) self.new }
    {
        for (k, &entry) in entries.iter().enumerate() {
            put(self, k, entry);
        }
    }

    // A line for each entry that is 1.
    pub fn put_starts(&mut self, form: Form, flags: &[u8])
        ensures { Puts self.old (start_lines form.actions form.count flags.now) self.new }
    {
        self.put_lines(flags, |page, word, flag| {
            if flag == 1 {
                page.put_start(form, word);
            }
        });
    }

    // A line for each entry that is not 0.
    pub fn put_allows(&mut self, form: Form, masks: &[u8])
        ensures { Puts self.old (allow_lines form.actions form.count masks.now) self.new }
    {
        self.put_lines(masks, |page, node, mask| {
            if mask != 0 {
                page.put_allow(form, node, usize::from(mask));
            }
        });
    }

    // A line for each entry that is not 0. Not joined with `put_allows`: another type of entry and another line, no plainer as parameters.
    pub fn put_ranks(&mut self, form: Form, ranks: &[u16])
        ensures { Puts self.old (rank_lines form.actions form.count ranks.now) self.new }
    {
        self.put_lines(ranks, |page, node, rank| {
            if rank != 0 {
                page.put_rank(form, node, usize::from(rank));
            }
        });
    }
}
