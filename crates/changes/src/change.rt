// A change as it is lent.

ghost use Rattle.std.specs.Prelude.{◌≡◌, cond, length, true, false, ◌+◌, ◌≤◌};
ghost use Rattle.changes.specs.Entries.{Lent};

// The bytes of its settings, and whether it is a group, which takes marks. A single setting is lent as a group is, without marks: an
// enum of both would have the same bytes in each case.
#[derive(Clone, Copy)]
pub struct Change<'a> {
    pub entries: &'a [u8],
    pub marks: bool,
    pub ghost lent: { Lent marks entries.now },
}
