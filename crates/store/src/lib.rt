// The store in an image: the one look that serves a call, at the headers of all pages and at the slots of the used ones.

#![tactic(auto)]

ghost use Rattle.std.specs.Prelude.{◌≡◌, [], ◌+◌, ◌*◌, ◌≤◌, length, take, IfOk};
ghost use Rattle.rules.specs.Store.{records, in_group};
ghost use Rattle.rules.specs.Page.{size};
ghost use Rattle.pages.specs.Read.{as_form};
ghost use Rattle.survey.specs.States.{slots_in};
ghost use Rattle.survey.specs.Look.{line_of};
ghost use Rattle.settings.specs.Held.{PutsIn};
ghost use Rattle.store.specs.Gather.{gathered, Passes, standing, Ends};
ghost use Rattle.store.specs.Opened.{Opens, Rests};

use pages::Form;
use settings::{Passed, Table, TooMany};
use survey::{Look, Refusal};

// The records that count of the first n slots of a page put in, the first slot first; and whether the slot behind them stands in a
// group.
fn put_page(image: &[u8], form: Form, page: usize, n: usize, table: &mut Table) -> Passed
    requires { (page ≤ 32) × (n ≤ form.slots) × (page * size (as_form form) + size (as_form form) ≤ length image.now) }
    ensures value { PutsIn (records form.edition (take n (slots_in (as_form form) page image.now))) table.old table.new result.put }
    ensures group { result.group ≡ in_group (standing form.edition (take n (slots_in (as_form form) page image.now))) }
{
    let slots = survey::slots_of(image, form, page, n);
    table.put_slots(slots, form.edition)
}

// The records of the used pages put into an empty table, one page after the other, the oldest first. Those of the last page, the
// active one, are all before its free slot. Whether that free slot stands in a group.
// Not drawn into its caller, so that the looks of both are not on the stack at once.
#[inline(never)]
fn gather(image: &[u8], form: Form, look: &Look, table: &mut Table) -> Result<bool, TooMany>
    requires passes { Passes (as_form form) image.now (line_of look.now) look.now.free }
    requires long { (look.now.used ≤ 32) × (length look.now.line ≡ 32) }
    requires empty { table.old ≡ [] }
    ensures value { PutsIn (gathered (as_form form) image.now (line_of look.now)) [] table.new result }
    ensures ends { IfOk result (Ends (as_form form) image.now (line_of look.now) look.now.used) }
{
    let mut open_group = false;
    for (k, page) in look.line[..look.used].iter().enumerate() {
        let is_active = k + 1 == look.used;
        let n = if is_active { look.free } else { form.slots };
        let passed = put_page(image, form, *page as usize, n, table);
        passed.put?;
        open_group = passed.group;
    }
    Ok(open_group)
}

// What is told of a store: whether a group is open, and the look at the pages.
#[derive(Clone, Copy)]
pub struct Store {
    pub group: bool,
    pub look: Look,
}

// The one look at an image that serves a call. The table that is lent, which is empty, has the settings then, if there is no refusal.
pub fn open(image: &[u8], form: Form, table: &mut Table) -> Result<Store, Refusal>
    requires { table.old ≡ [] }
    ensures opens { Opens (as_form form) image.now result table.new }
    ensures rest { Rests result }
{
    let look = survey::look_at(image, form)?;
    match gather(image, form, &look, table) {
        // S13. Open group: there is a free slot, and it stands in a group. The length is asked for its contract alone: at most 192
        // addresses are held, and they rise.
        Ok(open_group) => {
            let _held = table.len();
            let group = look.free < form.slots && open_group;
            Ok(Store { group, look })
        }
        Err(TooMany) => Err(Refusal::Damaged),
    }
}
