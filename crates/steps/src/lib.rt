// Steps under an allowance: each method does no more of its steps than are left, in their order, and then fewer are left. The
// image changes through the two functions of crate flash only, one call for each step.

#![tactic(auto)]

ghost use Rattle.std.specs.Prelude.{◌≡◌, ℕ, Bool, map, ◌+◌, ◌-◌, ◌*◌, ◌≤◌, ◌<◌, max, length, take};
ghost use Rattle.rules.specs.Flash.{AllAllowed, run};
ghost use Rattle.rules.specs.Page.{word_count, size};
ghost use Rattle.rules.specs.Word.{word_steps};
ghost use Rattle.rules.specs.Store.{or_value};
ghost use Rattle.rules.specs.Steps.{renew, renew_all, greatest_wear, slots_steps, record_of, group, words_of};
ghost use Rattle.rules.specs.Call.{first_pages, page_in, triples};
ghost use Rattle.words.specs.Read.{as_word};
ghost use Rattle.pages.specs.Read.{as_form, as_option};
ghost use Rattle.settings.specs.Held.{taken};
ghost use Rattle.steps.specs.Done.{HasPage, HasPages, May, Done};
ghost use Rattle.steps.specs.Picked.{picked_steps, Answers};
ghost use Rattle.steps.specs.Copied.{copied};

use pages::Form;
use settings::{HELD_MAX, Setting};
use words::Word;

// An image whose pages are of a form, and how many steps are left.
#[derive(Drop)]
pub struct Steps<'a> {
    pub image: &'a mut [u8],
    pub form: Form,
    pub left: u16,
}

impl Steps<'_> {
    // Programs a word at its place in a page, first half first.
    pub fn program_word(&mut self, page: usize, place: usize, w: Word)
        requires place { (page < 32) × (place < word_count (as_form self.old.form)) }
        requires allowed { May self.old (word_steps page place (as_word w)) }
        ensures { Done self.old (word_steps page place (as_word w)) self.new }
    {
        if self.left == 0 {
            return;
        }
        let at = self.form.start(page) + place * 4;
        flash::program_at(self.image, at, w.a, w.b);
        let is_last = self.left == 1;
        if is_last {
            self.left = 0;
            return;
        }
        flash::program_at(self.image, at + 2, w.c, w.d);
        self.left -= 2;
    }

    // Erases a page and programs its wear word.
    pub fn renew(&mut self, page: usize, wear: u16)
        requires { HasPage self.old page }
        ensures { Done self.old (renew self.old.form.edition page wear) self.new }
    {
        if self.left == 0 {
            return;
        }
        flash::erase_at(self.image, self.form.start(page), self.form.size());
        self.left -= 1;
        let w = words::wear_word(self.form.edition, wear);
        self.program_word(page, 0, w);
    }

    // Renews the first n pages with wear 1, in index order.
    #[tactic(auto, using(crate::proofs::Doing::page_of, crate::proofs::Doing::pages_kept))]
    pub fn renew_all(&mut self, n: usize)
        requires { HasPages self.old n }
        ensures { Done self.old (renew_all self.old.form.edition 0 n) self.new }
    {
        for page in 0..n {
            self.renew(page, 1);
        }
    }

    // P4. Wear of the page at an index, if it has one.
    fn wear(&self, page: usize) -> Option<u16>
        requires { HasPage self.now page }
        ensures { as_option result ≡ (page_in (as_form self.now.form) page self.now.image.now).wear }
    {
        let at = self.form.start(page);
        let end = at + self.form.size();
        pages::wear_of(&self.image[at..end], self.form.edition)
    }

    // The greatest wear of the first n pages, in whatever state they are; 0 if none has one.
    fn greatest_wear(&self, n: usize) -> u16
        requires { HasPages self.now n }
        ensures { result ≡ greatest_wear (first_pages (as_form self.now.form) n self.now.image.now) }
    {
        (0..n).filter_map(|page| self.wear(page)).max().unwrap_or(0)
    }

    // Renews the picked pages among the first n, in index order. C4. New wear: the greatest is looked for once, and grows as pages
    // are renewed.
    pub fn renew_picked<F: Fn(usize) -> bool>(&mut self, n: usize, picks: F)
        requires pages { HasPages self.old n }
        requires callable { (page : ℕ) → page < n → F.pre picks page }
        ensures { (test : ℕ → Bool) → Answers (F.post picks) n test
            → Done self.old (picked_steps (as_form self.old.form) n test self.old.image.now) self.new }
    {
        let mut greatest = self.greatest_wear(n);
        for page in 0..n {
            if picks(page) {
                let wear = pages::one_more(self.wear(page).unwrap_or(greatest));
                self.renew(page, wear);
                greatest = greatest.max(wear);
            }
        }
    }

    // Programs the records of the entries, in the order given, from a slot of a page on.
    #[tactic(auto, using(changes::proofs::Entries::length_triples))]
    pub fn program_records(&mut self, page: usize, slot: usize, entries: &[u8])
        requires room { (page < 32) × (slot + length (triples entries.now) ≤ self.old.form.slots) }
        requires allowed { May self.old (slots_steps page slot (map record_of (triples entries.now))) }
        ensures { Done self.old (slots_steps page slot (map record_of (triples entries.now))) self.new }
    {
        for k in 0..entries.len() / 3 {
            let w = words::record_word(
                changes::address_at(entries, k),
                changes::value_at(entries, k),
            );
            self.program_word(page, 3 + slot + k, w);
        }
    }

    // Programs a group, from a slot of a page on: the mark that opens it, the records, the mark that closes it.
    #[tactic(auto, using(changes::proofs::Entries::length_triples))]
    pub fn program_group(&mut self, page: usize, slot: usize, entries: &[u8])
        requires room { (page < 32) × (slot + length (triples entries.now) + 2 ≤ self.old.form.slots) × (length (triples entries.now) ≤ 8) }
        requires allowed { May self.old (slots_steps page slot (words_of (group (triples entries.now)))) }
        ensures { Done self.old (slots_steps page slot (words_of (group (triples entries.now)))) self.new }
    {
        let n = entries.len() / 3;
        self.program_word(page, 3 + slot, words::mark_word(n as u8));
        self.program_records(page, slot + 1, entries);
        self.program_word(page, 4 + slot + n, words::mark_word(128 + n as u8));
    }

    // Copies the settings of the first places, in whatever order they stand, but those of the written addresses, to the slots of a
    // page, then programs the new records. The places travel by value, 192 of them: a form that was asked for (docs/DECISIONS.md).
    pub fn copy(&mut self, page: usize, settings: [Setting; HELD_MAX], held: usize, entries: &[u8])
        requires held { held ≤ 192 }
        requires room { (page < 32) × (length (copied (taken settings held) (triples entries.now)) ≤ self.old.form.slots) }
        requires allowed { May self.old (slots_steps page 0 (map record_of (copied (taken settings held) (triples entries.now)))) }
        ensures { Done self.old (slots_steps page 0 (map record_of (copied (taken settings held) (triples entries.now)))) self.new }
    {
        let mut slot = 0;
        for setting in &settings[..held] {
            if !changes::names_from(entries, 0, setting.address) {
                let w = words::record_word(setting.address, setting.value);
                self.program_word(page, 3 + slot, w);
                slot += 1;
            }
        }
        self.program_records(page, slot, entries);
    }
}

// Renews the first n pages with wear 1, in index order, and leaves no step of it undone: a page takes three.
pub fn renew_all(image: &mut [u8], form: Form, n: usize)
    requires { (n ≤ 32) × (n * size (as_form form) ≤ length image.old) }
    ensures { image.new ≡ run (size (as_form form)) (renew_all form.edition 0 n) image.old }
{
    let left = 3 * n as u16;
    let mut steps = Steps { image, form, left };
    steps.renew_all(n);
}
