// Words of four bytes: the check, the makers and the readers, and what a word in a slot is (section W).

#![tactic(auto)]

ghost use Rattle.std.specs.Prelude.{◌≡◌, ◌+◌, ◌/◌, ◌≤◌, ◌<◌, length, map, false};
ghost use Rattle.rules.specs.Word.{Word as Bytes, words, zeros, check, sound, blank, second_blank, low16, low24, mark, slot};
ghost use Rattle.rules.specs.Word.{checked, wear_word, number_word, opening_word, done_word, record_word, mark_word};
ghost use Rattle.words.specs.Read.{as_word, as_slot, word_in};

// W11. No record has this address.
pub const NO_ADDRESS: u16 = u16::MAX;

#[derive(Clone, Copy, PartialEq, Eq)]
pub struct Word {
    pub a: u8,
    pub b: u8,
    pub c: u8,
    pub d: u8,
}

// W1. What erased flash reads.
const BLANK: Word = Word {
    a: 255,
    b: 255,
    c: 255,
    d: 255,
};

// How many 0 bits a half of a byte has, from 0000 to 1111. Proved once, of the whole table (`rule` of Table.antt): each place
// has the zero count of its index, of four bits.
const ZEROS: [u8; 16] = [4, 3, 3, 2, 3, 2, 2, 1, 3, 2, 2, 1, 2, 1, 1, 0];

// The number of 0 bits of a byte; the bound lets every caller's sum close by itself. The table is named once, since each
// use of a constant array puts it on the stack.
pub fn zeros(b: u8) -> u8
    ensures value { result ≡ zeros 8 b }
    ensures upper_bound { result ≤ 8 }
{
    let counts = ZEROS;
    counts[(b / 16) as usize] + counts[(b % 16) as usize]
}

// Berger's check of three bytes.
pub fn check(a: u8, b: u8, c: u8) -> u8
    ensures value { result ≡ check a b c }
    ensures upper_bound { result ≤ 24 }
{
    zeros(a) + zeros(b) + zeros(c)
}

pub fn is_sound(w: Word) -> bool
    ensures { result ≡ sound (as_word w) }
{
    w.d == check(w.a, w.b, w.c)
}

#[tactic(auto, unfolding(rules::specs::Word::blank))]
pub fn is_blank(w: Word) -> bool
    ensures { result ≡ blank (as_word w) }
{
    w == BLANK
}

// W13. Whether the second half is 65,535.
#[tactic(auto, unfolding(rules::specs::Word::second_blank))]
fn is_second_blank(w: Word) -> bool
    ensures { result ≡ second_blank (as_word w) }
{
    w.c == 255 && w.d == 255
}

impl From<[u8; 4]> for Word {
    #[tactic(auto, unfolding(crate::specs::Read::word_in))]
    fn from(bytes: [u8; 4]) -> Word
        ensures { as_word result ≡ word_in bytes 0 }
    {
        let [a, b, c, d] = bytes;
        Word { a, b, c, d }
    }
}

// The bytes of the words that bytes are, four for each.
#[tactic(auto, using(crate::proofs::Parts::fours_are))]
pub fn fours(s: &[u8]) -> &[[u8; 4]]
    ensures value { map (λ b. word_in b 0) result.now ≡ words s.now }
    ensures len { length result.now ≡ length s.now / 4 }
{
    s.as_chunks::<4>().0
}

// The word that begins at an offset of the bytes.
#[tactic(auto, unfolding(crate::specs::Read::word_in))]
pub fn word_at(s: &[u8], at: usize) -> Word
    requires { at + 4 ≤ length s.now }
    ensures { as_word result ≡ word_in s.now at }
{
    Word {
        a: s[at],
        b: s[at + 1],
        c: s[at + 2],
        d: s[at + 3],
    }
}

// The sound word of three bytes: every maker below goes through it.
pub fn checked(a: u8, b: u8, c: u8) -> Word
    ensures { as_word result ≡ checked a b c }
{
    Word {
        a,
        b,
        c,
        d: check(a, b, c),
    }
}

#[tactic(auto, unfolding(rules::specs::Word::record_word))]
pub fn record_word(address: u16, value: u8) -> Word
    ensures { as_word result ≡ record_word address value }
{
    let [low, high] = address.to_le_bytes();
    checked(low, high, value)
}

pub fn mark_word(value: u8) -> Word
    ensures { as_word result ≡ mark_word value }
{
    record_word(NO_ADDRESS, value)
}

#[tactic(auto, unfolding(rules::specs::Word::wear_word))]
pub fn wear_word(edition: u8, wear: u16) -> Word
    ensures { as_word result ≡ wear_word edition wear }
{
    let [low, high] = wear.to_le_bytes();
    checked(low, high, edition)
}

#[tactic(auto, unfolding(rules::specs::Word::number_word))]
pub fn number_word(n: u32) -> Word
    requires { n < 16777216 }
    ensures { as_word result ≡ number_word n }
{
    let [low, middle, high, _] = n.to_le_bytes();
    checked(low, middle, high)
}

// The kind is a number, as the word has it: of any below 4 this is promised.
pub fn opening_word(kind: u8, order: u32) -> Word
    requires { (kind < 4) × (order < 4194304) }
    ensures { as_word result ≡ opening_word kind order }
{
    number_word(order * 4 + kind as u32)
}

pub fn done_word(order: u32) -> Word
    requires { order < 4194304 }
    ensures { as_word result ≡ done_word order }
{
    number_word(order * 4 + 3)
}

#[tactic(auto, unfolding(rules::specs::Word::low16))]
pub fn low16(w: Word) -> u16
    ensures { result ≡ low16 (as_word w) }
{
    u16::from_le_bytes([w.a, w.b])
}

#[tactic(auto, unfolding(rules::specs::Word::low24))]
pub fn low24(w: Word) -> u32
    ensures { result ≡ low24 (as_word w) }
{
    u32::from_le_bytes([w.a, w.b, w.c, 0])
}

// What a word is in a slot: a record, a mark that opens or closes a group of so many records, or neither.
#[derive(Clone, Copy, PartialEq, Eq)]
pub enum Slot {
    Record,
    Opens(u8),
    Closes(u8),
    Blank,
    HalfWritten,
    Spoiled,
}

// W14. Marks: what a sound word without an address is, by its value.
#[tactic(auto, using(rules::proofs::Conditions::mark_zero, rules::proofs::Conditions::mark_opens, rules::proofs::Conditions::mark_closes, rules::proofs::Conditions::mark_between, rules::proofs::Conditions::mark_beyond))]
fn mark(value: u8) -> Slot
    ensures { (w : Bytes) → as_slot w result ≡ mark value }
{
    match value {
        0 => Slot::Closes(0),
        1..=8 => Slot::Opens(value),
        129..=136 => Slot::Closes(value - 128),
        _ => Slot::Spoiled,
    }
}

// What a word without an address is, which is not blank: a mark, if the edition has groups.
fn without_address(w: Word, edition: u8) -> Slot
    requires { (low16 (as_word w) ≡ 65535) × (blank (as_word w) ≡ false) }
    ensures { as_slot (as_word w) result ≡ slot edition (as_word w) }
{
    let has_no_groups = edition < 2;
    if has_no_groups {
        return Slot::Spoiled;
    }
    if is_sound(w) {
        return mark(w.c);
    }
    Slot::Spoiled
}

// What a word is in a slot of a page of that edition: no other code tells them apart. The cheap test comes first. The edition is a
// number here and above, and not an enum: it is compared with a byte of the flash, and this is promised of any.
pub fn in_slot(w: Word, edition: u8) -> Slot
    ensures { as_slot (as_word w) result ≡ slot edition (as_word w) }
{
    let has_no_address = low16(w) == NO_ADDRESS;
    // Behind a first half of 65,535 a blank second half makes a blank word: the first half is not compared again.
    if has_no_address {
        if is_second_blank(w) {
            return Slot::Blank;
        }
        return without_address(w, edition);
    }
    if is_sound(w) {
        return Slot::Record;
    }
    if is_second_blank(w) {
        return Slot::HalfWritten;
    }
    Slot::Spoiled
}
