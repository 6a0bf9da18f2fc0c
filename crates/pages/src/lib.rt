// The state of one page (P4 to P8). A page is lent as the part of the image that it is.

#![tactic(auto)]

ghost use Rattle.std.specs.Prelude.{◌≡◌, ◌*◌, ◌/◌, ◌≤◌, ◌<◌, length, cond};
ghost use Rattle.std.proofs.Math.Option.{none, some};
ghost use Rattle.rules.specs.Word.{words};
ghost use Rattle.rules.specs.Page.{size, in_edition, wear_part, is_wear, wear_in, is_opening, order_in, is_done, all_blank, state_after_wear, state};
ghost use Rattle.rules.specs.Store.{is_open, order, free_slot};
ghost use Rattle.rules.specs.Call.{has_edition, opens_itself, own_edition};
ghost use Rattle.rules.specs.Named.{chip_of};
ghost use Rattle.rules.specs.Steps.{one_more};
ghost use Rattle.words.specs.Read.{as_word};
ghost use Rattle.pages.specs.Read.{as_state, as_form, as_chip, as_named, as_option};

mod form;

pub use form::{Chip, Form};
use words::Word;

// Pages are 2 to 32, orders 0 to 4,194,303.
pub const PAGES_MIN: usize = 2;

pub const PAGES_MAX: usize = 32;

pub const ORDER_MAX: u32 = 4194303;

// The header of a page: three words.
pub const HEADER_SIZE: usize = 12;

// The chips that there are: pages of 1,024 bytes are of the first edition or the second, those of 2,048 bytes of the third.
pub const SMALLER: Chip = Chip {
    slots: 253,
    first: 1,
    last: 2,
};

pub const LARGER: Chip = Chip {
    slots: 509,
    first: 3,
    last: 3,
};

// The chip that a page size names, if there is one.
#[tactic(auto, unfolding(rules::specs::Named::chip_of))]
pub fn chip_of(page_size: u16) -> Option<Chip>
    ensures { as_named result ≡ chip_of page_size }
{
    match page_size {
        1024 => Some(SMALLER),
        2048 => Some(LARGER),
        _ => None,
    }
}

impl Chip {
    #[tactic(auto, unfolding(rules::specs::Call::has_edition))]
    fn has_edition(self, edition: u8) -> bool
        ensures { result ≡ has_edition (as_chip self) edition }
    {
        self.first <= edition && edition <= self.last
    }

    // P9. The edition that format is told: the last, which of the smaller chip is the second, or the first. Of any two numbers, and
    // so not of a chip, which has the law of its editions.
    pub fn told(first: u8, last: u8, second: bool) -> u8
        ensures { result ≡ cond second last first }
    {
        if second { last } else { first }
    }

    pub fn form(self, edition: u8) -> Form
        ensures { as_form result ≡ in_edition (as_chip self) edition }
    {
        Form {
            slots: self.slots,
            edition,
        }
    }
}

impl Form {
    // The bytes of a page.
    pub fn size(self) -> usize
        ensures { result ≡ size (as_form self) }
    {
        HEADER_SIZE + 4 * self.slots
    }

    // The offset at which a page begins.
    pub fn start(self, page: usize) -> usize
        requires { page ≤ 32 }
        ensures value { result ≡ page * size (as_form self) }
        ensures upper_bound { result ≤ 65536 }
    {
        page * self.size()
    }
}

// A cleared page has its wear, an open one of kind 1 or 2 its order.
#[derive(Clone, Copy, Default)]
pub enum State {
    Cleared(u16),
    Open1(u32),
    Open2(u32),
    Receiving,
    #[default]
    Bad,
}

// P4. Wear of a page: a sound wear word with the edition as its third byte. Here and below the cheap test comes first.
#[tactic(auto, unfolding(rules::specs::Page::is_wear, rules::specs::Word::third))]
pub fn is_wear(w: Word, edition: u8) -> bool
    ensures { result ≡ is_wear edition (as_word w) }
{
    w.c == edition && words::is_sound(w)
}

// W8. Opening word: sound, of kind 1 or of kind 2. The kind is a number, as the word has it.
#[tactic(auto, unfolding(rules::specs::Page::is_opening))]
pub fn is_opening(w: Word, kind: u32) -> bool
    ensures { result ≡ is_opening kind (as_word w) }
{
    words::low24(w) % 4 == kind && words::is_sound(w)
}

// The order that an opening word gives.
#[tactic(auto, unfolding(rules::specs::Page::order_in, rules::specs::Word::low24))]
pub fn order_in(w: Word) -> u32
    ensures value { result ≡ order_in (as_word w) }
    ensures upper_bound { result < 4194304 }
{
    words::low24(w) / 4
}

// W9. Done word: it matches the opening word.
#[tactic(auto, unfolding(rules::specs::Page::is_done))]
pub fn is_done(w: Word, order: u32) -> bool
    requires { order < 4194304 }
    ensures { result ≡ is_done order (as_word w) }
{
    words::low24(w) == order * 4 + 3 && words::is_sound(w)
}

// Whether every word of the bytes is blank.
pub fn all_blank(s: &[u8]) -> bool
    ensures { result ≡ all_blank (words s.now) }
{
    words::fours(s)
        .iter()
        .all(|bytes| words::is_blank(Word::from(*bytes)))
}

// The state of a page that has a sound wear word: what its other words make of it.
fn after_wear(page: &[u8], wear: u16) -> State
    requires { 12 ≤ length page.now }
    ensures result_value { as_state result ≡ state_after_wear (words page.now) wear }
    ensures result_bound { order (as_state result) < 4194304 }
{
    let opening = words::word_at(page, 4);
    let order = order_in(opening);
    if is_opening(opening, 1) {
        return State::Open1(order);
    }
    if is_opening(opening, 2) {
        if is_done(words::word_at(page, 8), order) {
            return State::Open2(order);
        }
        return State::Receiving;
    }
    if all_blank(&page[4..]) {
        return State::Cleared(wear);
    }
    State::Bad
}

pub fn state_of(page: &[u8], edition: u8) -> State
    requires { 12 ≤ length page.now }
    ensures result_value { as_state result ≡ state edition (words page.now) }
    ensures result_bound { order (as_state result) < 4194304 }
{
    let wear = words::word_at(page, 0);
    if is_wear(wear, edition) {
        return after_wear(page, words::low16(wear));
    }
    State::Bad
}

// P9. Whether a page is open by itself, its own wear word telling the edition. What its slots hold has no part in that.
fn is_open_itself(page: &[u8], wear: Word) -> bool
    requires { (12 ≤ length page.now) × (as_word wear ≡ wear_part (words page.now)) }
    ensures { result ≡ is_open (state wear.c (words page.now)) }
{
    let opening = words::word_at(page, 4);
    words::is_sound(wear)
        && (is_opening(opening, 1)
            || is_opening(opening, 2) && is_done(words::word_at(page, 8), order_in(opening)))
}

// The edition of a page that is open by itself, if the chip has that edition.
pub fn own_edition(page: &[u8], chip: Chip) -> Option<u8>
    requires { 12 ≤ length page.now }
    ensures { as_option result ≡ cond (opens_itself (as_chip chip) (words page.now)) (some (own_edition (words page.now))) none }
{
    let wear = words::word_at(page, 0);
    if !chip.has_edition(wear.c) {
        return None;
    }
    if is_open_itself(page, wear) {
        return Some(wear.c);
    }
    None
}

// P4. Wear of a page, if it has one.
pub fn wear_of(page: &[u8], edition: u8) -> Option<u16>
    requires { 4 ≤ length page.now }
    ensures { as_option result ≡ wear_in edition (words page.now) }
{
    let w = words::word_at(page, 0);
    is_wear(w, edition).then_some(words::low16(w))
}

// C4. New wear: one more, 65,535 at most.
pub fn one_more(wear: u16) -> u16
    ensures { result ≡ one_more wear }
{
    wear.saturating_add(1)
}

// S8. Free slot: it is the one behind the last slot that isn't blank. How many slots come before it.
pub fn free_slot(slots: &[u8]) -> usize
    ensures value { result ≡ free_slot (words slots.now) }
    ensures upper_bound { result ≤ length slots.now / 4 }
{
    for last in (0..slots.len() / 4).rev() {
        if !words::is_blank(words::word_at(slots, last * 4)) {
            return last + 1;
        }
    }
    0
}
