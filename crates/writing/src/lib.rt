// The calls that change the image: format, recovery, write and group write. An image of any length and content is lawful. It changes
// through the two functions of crate flash only, one call for each step, in the order of the rules.

#![tactic(auto)]

ghost use Rattle.std.specs.Prelude.{◌≡◌, List, Ok, ◌+◌, ◌*◌, ◌≤◌, ◌<◌, min, leb, length};
ghost use Rattle.rules.specs.Page.{size};
ghost use Rattle.rules.specs.Store.{Setting};
ghost use Rattle.rules.specs.Steps.{single, words_of, abandon_steps, append_steps, open_steps, fill_steps, move_steps, write_steps};
ghost use Rattle.rules.specs.Owner.{Owner as Holder};
ghost use Rattle.rules.specs.Call.{first_pages, pages, format, recover, write, triples, group_of};
ghost use Rattle.owners.specs.Read.{as_owner};
ghost use Rattle.pages.specs.Read.{as_form};
ghost use Rattle.changes.specs.Read.{as_change};
ghost use Rattle.steps.specs.Done.{May, Done};
ghost use Rattle.steps.specs.Copied.{copied};
ghost use Rattle.store.specs.Opened.{Holding};
ghost use Rattle.choosing.specs.Way.{Chosen};
ghost use Rattle.writing.specs.Answers.{as_formatted, as_stepped};
ghost use Rattle.writing.specs.Plans.{Does, Counted, Right, Tabled};

use changes::Change;
use choosing::Way;
use owners::Owner;
use pages::Form;
use settings::Table;
use steps::Steps;
use store::Store;
use survey::{Refusal, Role};

// What a call that is not refused did: whether it is finished, and how many steps it took. Both, as the rules and C have them: a call
// may be finished or not at the same number of steps.
#[derive(Clone, Copy, Debug, PartialEq, Eq)]
pub struct Outcome {
    pub finished: bool,
    pub steps: u16,
}

impl Outcome {
    // That many steps, cut at the allowance.
    fn of(steps: u16, allowance: u16) -> Outcome
        ensures { (result.steps ≡ min allowance steps) × (result.finished ≡ leb steps allowance) }
    {
        Outcome {
            finished: steps <= allowance,
            steps: allowance.min(steps),
        }
    }
}

// The opening word of page 0: order 0, kind 1.
pub fn format(image: &mut [u8], form: Form) -> Result<(), Refusal>
    ensures { as_formatted result image.new ≡ format (as_form form) image.old }
{
    let n = survey::page_count(image, form)?;
    steps::renew_all(image, form, n);
    let left = 2;
    let mut steps = Steps { image, form, left };
    steps.program_word(0, 1, words::opening_word(1, 0));
    Ok(())
}

// C20. Abandoning: a mark in the free slot ends the open group, if there is one. This function and those below tell how many steps
// there are in all, be they allowed or not.
#[tactic(auto, using(crate::proofs::Recovering::mark_fits, crate::proofs::Recovering::mark_allowed))]
fn abandon(steps: &mut Steps, store: &Store) -> u16
    requires { (held : List Setting) × Holding (as_form steps.old.form) steps.old.image.now store.now held }
    ensures { Counted steps.old (abandon_steps (pages (as_form steps.old.form) steps.old.image.now)) steps.new result }
{
    let is_open = store.group;
    if !is_open {
        return 0;
    }
    steps.program_word(store.look.active, 3 + store.look.free, words::mark_word(0));
    2
}

// An open group is abandoned; then the pages that are neither used nor cleared are renewed, in index order.
pub fn recover(image: &mut [u8], form: Form, allowance: u16) -> Result<Outcome, Refusal>
    ensures { as_stepped result image.new ≡ recover (as_form form) allowance image.old }
{
    let mut table = Table::new();
    let store = store::open(image, form, &mut table)?;
    let look = &store.look;
    let renewed = look.count - look.used - look.cleared;
    let mut steps = Steps {
        image,
        form,
        left: allowance,
    };
    let abandoned = abandon(&mut steps, &store);
    steps.renew_picked(look.count, |page| look.roles[page] == Role::Unclean);
    Ok(Outcome::of(abandoned + 3 * renewed as u16, allowance))
}

// The change goes into the slots of a page, from one on: its record or, with marks, its group.
fn append(steps: &mut Steps, page: usize, slot: usize, change: &Change) -> u16
    requires right { Right steps.old.form.edition change.now }
    requires place { (page < 32) × (slot + length (words_of (as_change change.now)) ≤ steps.old.form.slots) }
    requires allowed { May steps.old (append_steps page slot (as_change change.now)) }
    ensures { Counted steps.old (append_steps page slot (as_change change.now)) steps.new result }
{
    if change.marks {
        steps.program_group(page, slot, change.entries);
    } else {
        steps.program_records(page, slot, change.entries);
    }
    2 * change.slots() as u16
}

// A cleared page is opened, and the change goes into its slots, from 0 on.
fn open_page(steps: &mut Steps, page: usize, order: u32, change: &Change) -> u16
    requires right { Right steps.old.form.edition change.now }
    requires place { (page < 32) × (order < 4194304) }
    requires allowed { May steps.old (open_steps page order (as_change change.now)) }
    ensures { Counted steps.old (open_steps page order (as_change change.now)) steps.new result }
{
    steps.program_word(page, 1, words::opening_word(1, order));
    2 + append(steps, page, 0, change)
}

// A cleared page is opened to receive, what is held is copied to it with the new records, and its done word is programmed.
// In a frame of its own, so that the copy of the settings takes no stack while the image is looked at.
#[inline(never)]
fn fill(steps: &mut Steps, page: usize, order: u32, table: &Table, entries: &[u8])
    requires place { (page < 32) × (order < 4194304) × (length (copied table.now (triples entries.now)) ≤ steps.old.form.slots) }
    requires allowed { May steps.old (fill_steps page order (copied table.now (triples entries.now))) }
    ensures { Done steps.old (fill_steps page order (copied table.now (triples entries.now))) steps.new }
{
    steps.program_word(page, 1, words::opening_word(2, order));
    steps.copy(page, *table.places(), table.len(), entries);
    steps.program_word(page, 2, words::done_word(order));
}

// How many records a move has: all that is held then.
fn copy_count(table: &Table, entries: &[u8]) -> u16
    requires short { length entries.now ≤ 26 }
    requires tabled { Tabled table.now (triples entries.now) }
    ensures { (result ≡ length (copied table.now (triples entries.now))) × (result ≤ 192) }
{
    (table.len() + choosing::told_of(table, entries).new) as u16
}

// The last cleared page of n receives all that is held, and the other pages are renewed.
fn move_to(
    steps: &mut Steps,
    page: usize,
    order: u32,
    n: usize,
    table: &Table,
    entries: &[u8],
) -> u16
    requires place { (page < n) × (n ≤ 32) × (length steps.old.image.now ≡ n * size (as_form steps.old.form)) × (order < 4194304) }
    requires short { length entries.now ≤ 26 }
    requires tabled { Tabled table.now (triples entries.now) }
    requires allowed { May steps.old (fill_steps page order (copied table.now (triples entries.now))) }
    ensures { Counted steps.old (move_steps steps.old.form.edition page order (copied table.now (triples entries.now))
        (first_pages (as_form steps.old.form) n steps.old.image.now)) steps.new result }
{
    let copies = copy_count(table, entries);
    fill(steps, page, order, table, entries);
    steps.renew_picked(n, |other| other != page);
    2 * copies + 3 * n as u16 + 1
}

// The steps of a write, the way of which was chosen by one look at the image.
fn follow(steps: &mut Steps, way: Way, store: &Store, table: &Table, change: &Change) -> u16
    requires opened { Holding (as_form steps.old.form) steps.old.image.now store.now table.now }
    requires chosen { (o : Holder) × Chosen (as_form steps.old.form) o (as_change change.now) steps.old.image.now (Ok way) }
    ensures { Counted steps.old (write_steps steps.old.form.edition (as_change change.now) (pages (as_form steps.old.form) steps.old.image.now))
        steps.new result }
{
    match way {
        Way::Stay => 0,
        Way::Append { page, slot } => append(steps, page, slot, change),
        Way::Open { page, order } => open_page(steps, page, order, change),
        Way::Move { page, order } => {
            move_to(steps, page, order, store.look.count, table, change.entries)
        }
    }
}

// The steps of a way, and what is answered of them.
fn take(steps: &mut Steps, way: Way, store: &Store, table: &Table, change: &Change) -> Outcome
    requires opened { Holding (as_form steps.old.form) steps.old.image.now store.now table.now }
    requires chosen { (o : Holder) × Chosen (as_form steps.old.form) o (as_change change.now) steps.old.image.now (Ok way) }
    ensures same_image { steps.new.image.ghost_name ≡ steps.old.image.ghost_name }
    ensures does { Does (as_form steps.old.form) steps.old.left
        (write_steps steps.old.form.edition (as_change change.now) (pages (as_form steps.old.form) steps.old.image.now)) steps.old.image.now result
        steps.new.image.now }
{
    let allowance = steps.left;
    let total = follow(steps, way, store, table, change);
    Outcome::of(total, allowance)
}

// The steps of a change that the image at the call fixes, by one look at it.
fn write_change(
    image: &mut [u8],
    form: Form,
    owner: Owner,
    change: &Change,
    allowance: u16,
) -> Result<Outcome, Refusal>
    ensures { as_stepped result image.new ≡ write (as_form form) (as_owner owner) (as_change change.now) allowance image.old }
{
    let mut table = Table::new();
    let store = store::open(image, form, &mut table)?;
    let opened = Ok((&store, &table));
    let way = choosing::choose(opened, form.slots, form.edition, owner, change)?;
    let left = allowance;
    let mut steps = Steps { image, form, left };
    Ok(take(&mut steps, way, &store, &table, change))
}

// A single setting is lent as a group is, without marks.
pub fn write(
    image: &mut [u8],
    form: Form,
    owner: Owner,
    address: u16,
    value: u8,
    allowance: u16,
) -> Result<Outcome, Refusal>
    ensures { as_stepped result image.new ≡ write (as_form form) (as_owner owner) (single address value) allowance image.old }
{
    let [low, high] = address.to_le_bytes();
    let change = Change {
        entries: &[low, high, value],
        marks: false,
    };
    write_change(image, form, owner, &change, allowance)
}

pub fn write_group(
    image: &mut [u8],
    form: Form,
    owner: Owner,
    entries: &[u8],
    allowance: u16,
) -> Result<Outcome, Refusal>
    ensures { as_stepped result image.new ≡ write (as_form form) (as_owner owner) (group_of entries.now) allowance image.old }
{
    let change = Change {
        entries,
        marks: true,
    };
    write_change(image, form, owner, &change, allowance)
}
