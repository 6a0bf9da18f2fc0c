// The words that broke (L6): how many slots of the used pages are half-written, and how many are spoiled.

#![tactic(auto)]

ghost use Rattle.std.specs.Prelude.{◌≡◌, List, [], ◌∷◌, map, ◌+◌, ◌*◌, ◌≤◌, length};
ghost use Rattle.rules.specs.Word.{Word as Bytes, words, slot};
ghost use Rattle.rules.specs.Store.{Place as Standing, outside};
ghost use Rattle.rules.specs.Page.{size};
ghost use Rattle.rules.specs.Call.{pages};
ghost use Rattle.rules.specs.Listing.{condition_at, conditions, used_conditions};
ghost use Rattle.words.specs.Read.{as_slot};
ghost use Rattle.groups.specs.Stands.{Stands};
ghost use Rattle.pages.specs.Read.{as_form};
ghost use Rattle.survey.specs.States.{slots_in};
ghost use Rattle.survey.specs.Look.{pages_number, Told};
ghost use Rattle.broken.specs.Counts.{Counts};

use groups::Place;
use pages::Form;
use std::ops::AddAssign;
use survey::Look;
use words::Slot;

#[derive(Clone, Copy, Default)]
pub struct Broken {
    pub half: usize,
    pub spoiled: usize,
}

impl AddAssign for Broken {
    ghost can_add_assign = { λ a b. (a.half + b.half ≤ 65535) × (a.spoiled + b.spoiled ≤ 65535) };

    ghost add_assign_gives = { λ a b r. (r.half ≡ a.half + b.half) × (r.spoiled ≡ a.spoiled + b.spoiled) };

    fn add_assign(&mut self, other: Broken) {
        self.half += other.half;
        self.spoiled += other.spoiled;
    }
}

// What a slot of that kind counts for where it stands: a mark that opens a group inside another one is spoiled.
#[tactic(auto, unfolding(rules::specs::Listing::condition_at, rules::specs::Store::count, rules::specs::Listing::is_half, rules::specs::Listing::is_spoiled))]
fn of_slot(s: Slot, place: Place) -> Broken
    ensures { (at : Standing) (xs : List Bytes) (w : Bytes) → Stands at xs place → Counts (condition_at at (as_slot w s) ∷ []) result }
{
    let (half, spoiled) = match s {
        Slot::Record | Slot::Closes(_) => (0, 0),
        Slot::Opens(_) => (0, usize::from(place != Place::Outside)),
        Slot::Blank => (0, 0),
        Slot::HalfWritten => (1, 0),
        Slot::Spoiled => (0, 1),
    };
    Broken { half, spoiled }
}

// The slots of a page of that edition.
fn of_slots(slots: &[u8], edition: u8) -> Broken
    requires { length slots.now ≤ 2048 }
    ensures { Counts (conditions outside (map (slot edition) (words slots.now))) result }
{
    let mut broken = Broken::default();
    let mut place = Place::Outside;
    for k in 0..slots.len() / 4 {
        let s = words::in_slot(words::word_at(slots, 4 * k), edition);
        broken += of_slot(s, place);
        place = place.behind(s, k + 1);
    }
    broken
}

// The same of the page at an index.
#[tactic(auto, using(survey::proofs::Slots::slots_all))]
fn of_page(image: &[u8], form: Form, page: usize) -> Broken
    requires { (page ≤ 32) × (page * size (as_form form) + size (as_form form) ≤ length image.now) }
    ensures { Counts (conditions outside (map (slot form.edition) (slots_in (as_form form) page image.now))) result }
{
    of_slots(
        survey::slots_of(image, form, page, form.slots),
        form.edition,
    )
}

// The used pages of an image that is not refused, after one look at it. 32 pages of 509 slots, the most that a lawful form has, are
// 16,288 slots.
pub fn count(image: &[u8], form: Form, look: &Look) -> Broken
    requires { (pages_number (as_form form) image.now ≡ 0) × Told (as_form form) image.now look.now }
    ensures counts { Counts (used_conditions (pages (as_form form) image.now)) result }
    ensures spoiled_bound { result.half + result.spoiled ≤ 16288 }
{
    let mut broken = Broken::default();
    for page in &look.line[..look.used] {
        broken += of_page(image, form, *page as usize);
    }
    broken
}
