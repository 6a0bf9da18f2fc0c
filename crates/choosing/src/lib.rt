// What a write does, chosen by what one look told: the way of a write, or the first test that refuses it.

#![tactic(auto)]

ghost use Rattle.std.specs.Prelude.{◌≡◌, false, ◌||◌, List, [], ℕ, ◌+◌, ◌≤◌, ◌<◌, length, IsSome, MatchResult, Ok, Err};
ghost use Rattle.rules.specs.Page.{Page};
ghost use Rattle.rules.specs.Store.{Setting, better, settings, count};
ghost use Rattle.rules.specs.Owner.{is_own};
ghost use Rattle.rules.specs.Call.{a_wrong_address, wrong_group, new_in, no_room, crowded, triples, group_of};
ghost use Rattle.owners.specs.Read.{as_owner};
ghost use Rattle.changes.specs.Read.{as_change};
ghost use Rattle.settings.specs.Held.{as_option};
ghost use Rattle.survey.specs.Look.{roles_of};
ghost use Rattle.store.specs.Opened.{Holding, Opens, Opened};
ghost use Rattle.choosing.specs.Candidate.{offer, as_candidate, index_in, chosen};
ghost use Rattle.choosing.specs.Known.{Adds, Knows};
ghost use Rattle.choosing.specs.Way.{numbered, new_page_of, Tested, Chosen};

use changes::Change;
use owners::{Owner, TIMER_FIRST};
use pages::ORDER_MAX;
use settings::{HELD_MAX, Table};
use store::Store;
use survey::{Look, Refusal, Role};

// Stay, the values being held already; program the change at a page and from its slot there on; open a page with an order; move to
// a page with an order.
#[derive(Clone, Copy, Debug, PartialEq, Eq)]
pub enum Way {
    Stay,
    Append { page: usize, slot: usize },
    Open { page: usize, order: u32 },
    Move { page: usize, order: u32 },
}

// A cleared page that may be taken. It is offered each page and hands back the better of both: a form that was asked for
// (docs/DECISIONS.md).
#[derive(Clone, Copy, Debug, PartialEq, Eq)]
pub struct Candidate {
    pub index: usize,
    pub wear: u16,
}

// The better of the best page so far and the page of a greater index, which has that role.
#[tactic(auto, using(crate::proofs::Candidates::better_of_two))]
fn better(best: Option<Candidate>, index: usize, role: Role) -> Option<Candidate>
    ensures { as_candidate result ≡ better (as_candidate best) (offer index role) }
{
    let Role::Cleared(wear) = role else {
        return best;
    };
    let is_kept = best.is_some_and(|least| least.wear <= wear);
    if is_kept {
        best
    } else {
        Some(Candidate { index, wear })
    }
}

// S10. The page that is taken: of the cleared ones that of least wear, and of equals the first.
#[tactic(auto, unfolding(crate::specs::Candidate::least), using(crate::proofs::Candidates::least_next, crate::proofs::Candidates::least_all))]
fn least_worn(roles: &[Role]) -> Option<usize>
    ensures { result ≡ index_in (chosen roles.now) }
{
    let mut best = None;
    for (index, role) in roles.iter().enumerate() {
        best = better(best, index, *role);
    }
    best.map(|least| least.index)
}

// A new page, since the active one has no free slot: the last cleared page is moved to, any other is opened.
fn new_page(look: &Look) -> Result<Way, Refusal>
    requires fits { (look.now.order < 4194304) × (look.now.count ≤ 32) }
    requires cleared { IsSome (index_in (chosen (roles_of look.now))) }
    ensures { result ≡ new_page_of (roles_of look.now) look.now.cleared look.now.order }
{
    let is_last = look.order == ORDER_MAX;
    if is_last {
        return Err(Refusal::OrderEnd);
    }
    let page = least_worn(&look.roles[..look.count]).unwrap();
    let order = look.order + 1;
    let is_only_one = look.cleared < 2;
    if is_only_one {
        return Ok(Way::Move { page, order });
    }
    Ok(Way::Open { page, order })
}

// What a table tells of a change: how many of its addresses are new, and whether all have their values. One doesn't follow from the
// other: an address that is held may have another value.
#[derive(Clone, Copy, Debug, PartialEq, Eq)]
pub struct Known {
    pub new: usize,
    pub same: bool,
}

impl Known {
    // With one setting more, of whose address that was found.
    #[tactic(auto, unfolding(rules::specs::Call::is_held, rules::specs::Steps::is_value))]
    fn with(self, found: Option<u8>, value: u8) -> Known
        requires { self.new ≤ 65535 }
        ensures { Adds (as_option found) value self result }
    {
        match found {
            Some(held) => Known {
                new: self.new,
                same: held == value && self.same,
            },
            None => Known {
                new: self.new + 1,
                same: false,
            },
        }
    }
}

// What the table tells of the entries.
pub fn told_of(table: &Table, entries: &[u8]) -> Known
    requires { length entries.now ≤ 65535 }
    ensures knows { (ps : List Page) → table.now ≡ settings ps → a_wrong_address (triples entries.now) ≡ false
        → Knows ps (triples entries.now) result }
    ensures result_in_bounds { result.new ≤ length (triples entries.now) }
{
    let mut known = Known { new: 0, same: true };
    for k in 0..entries.len() / 3 {
        let found = table.value(changes::address_at(entries, k));
        known = known.with(found, changes::value_at(entries, k));
    }
    known
}

// N9. GROUP: of a group, the edition has none, or it is not of 1 to 8 settings, or an address repeats.
#[tactic(auto, using(crate::proofs::Telling::group_tests))]
fn is_wrong_group(edition: u8, entries: &[u8]) -> bool
    ensures { result ≡ wrong_group edition (group_of entries.now) }
{
    let has_no_groups = edition < 2;
    if has_no_groups || entries.len() % 3 != 0 || !(1..=8).contains(&(entries.len() / 3)) {
        return true;
    }
    changes::repeats(entries)
}

// A change is a single setting, or a group of settings, which takes marks.
#[tactic(auto, unfolding(changes::specs::Entries::change_of, rules::specs::Call::wrong_group))]
fn is_wrong(edition: u8, change: &Change) -> bool
    ensures { result ≡ wrong_group edition (as_change change.now) }
{
    change.marks && is_wrong_group(edition, change.entries)
}

// The tests that come before the table is asked, and the first that refuses the owner's change.
fn first_tests(
    store: &Store,
    slots: usize,
    edition: u8,
    owner: Owner,
    change: &Change,
) -> Result<(), Refusal>
    requires { store.now.look.used + store.now.look.cleared ≤ 32 }
    ensures { (i : List ℕ) (t : List Setting) → Holding (numbered slots edition) i store.now t
        → Tested (numbered slots edition) (as_owner owner) (as_change change.now) (triples change.now.entries.now) i result }
{
    let look = &store.look;
    let is_page_unclean = look.used + look.cleared < look.count;
    if is_page_unclean || store.group {
        return Err(Refusal::Unclean);
    }
    if is_wrong(edition, change) {
        return Err(Refusal::Group);
    }
    if changes::a_wrong_address(change.entries) {
        return Err(Refusal::Address);
    }
    if changes::a_foreign(change.entries, owner) {
        return Err(Refusal::Owner);
    }
    Ok(())
}

// How many of the addresses held are the owner's: in the table the handset's come first.
fn held_by(table: &Table, owner: Owner) -> usize
    ensures value { result ≡ count (is_own (as_owner owner)) table.now }
    ensures upper_bound { result ≤ 192 }
{
    let held = table.len();
    let handsets = table.below(TIMER_FIRST);
    match owner {
        Owner::Handset => handsets,
        Owner::Timer => held - handsets,
    }
}

// N6. NO ROOM: with the new addresses more than 192 would be held, or, if there are such, more by the owner than it may.
fn is_full(table: &Table, owner: Owner, new: usize) -> bool
    requires { new ≤ 65535 }
    ensures { (ps : List Page) (rs : List Setting) → table.now ≡ settings ps → new ≡ new_in rs ps
        → result ≡ (no_room rs ps || crowded (as_owner owner) rs ps) }
{
    let is_over = HELD_MAX < table.len() + new;
    if is_over {
        return true;
    }
    let is_some_new = new != 0;
    let most = owner.most();
    is_some_new && most < held_by(table, owner) + new
}

// What an owner's write of the change does to the image that the store and the table were opened from.
fn choose_way(
    store: &Store,
    slots: usize,
    edition: u8,
    owner: Owner,
    table: &Table,
    change: &Change,
) -> Result<Way, Refusal>
    requires { (image : List ℕ) × Holding (numbered slots edition) image store.now table.now }
    ensures { (i : List ℕ) → Holding (numbered slots edition) i store.now table.now
        → Chosen (numbered slots edition) (as_owner owner) (as_change change.now) i result }
{
    first_tests(store, slots, edition, owner, change)?;
    let known = told_of(table, change.entries);
    if known.same {
        return Ok(Way::Stay);
    }
    if is_full(table, owner, known.new) {
        return Err(Refusal::NoRoom);
    }
    let look = &store.look;
    let takes = change.slots();
    let has_room = takes <= slots - look.free;
    if has_room {
        return Ok(Way::Append {
            page: look.active,
            slot: look.free,
        });
    }
    new_page(look)
}

// The same of an image that may be refused, of pages of any number of slots and any edition: what refuses the image refuses the write.
pub fn choose(
    opened: Result<(&Store, &Table), Refusal>,
    slots: usize,
    edition: u8,
    owner: Owner,
    change: &Change,
) -> Result<Way, Refusal>
    requires { MatchResult opened (λ both. Opened (numbered slots edition) (Ok both.0.now) both.1.now)
        (λ refusal. Opened (numbered slots edition) (Err refusal) []) }
    ensures { (i : List ℕ) → MatchResult opened.entry (λ both. Opens (numbered slots edition) i (Ok both.0.now) both.1.now)
        (λ refusal. Opens (numbered slots edition) i (Err refusal) [])
        → Chosen (numbered slots edition) (as_owner owner) (as_change change.now) i result }
{
    match opened {
        Ok((store, table)) => choose_way(store, slots, edition, owner, table, change),
        Err(refusal) => Err(refusal),
    }
}
