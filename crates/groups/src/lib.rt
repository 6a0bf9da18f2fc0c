// Where a slot stands in its page (S11, S12): outside a group, in one whose records may still count, or in one that is lost.

#![tactic(auto)]

ghost use Rattle.std.specs.Prelude.{◌≡◌, List, [], ◌∷◌, ◌++◌, ◌+◌, ◌≤◌, length, drop, MatchOption, true, false};
ghost use Rattle.rules.specs.Word.{Word, closes};
ghost use Rattle.rules.specs.Store.{Place as Standing, behind, counted};
ghost use Rattle.words.specs.Read.{as_slot};
ghost use Rattle.groups.specs.Stands.{Stands, as_records, is_closed};

use words::Slot;

#[derive(Clone, Copy, PartialEq, Eq)]
pub enum Place {
    Outside,
    // In a group of that number. From its first record on, all slots before this one are records.
    Inside { number: u8, first: usize },
    // Something else stands between its opening and this slot.
    Lost,
}

impl Place {
    // Where the next slot stands, behind one of that kind.
    pub fn behind(self, s: Slot, next: usize) -> Place
        ensures { (at : Standing) (xs : List Word) (w : Word) → Stands at xs self → length xs + 1 ≡ next
            → Stands (behind at (as_slot w s)) (xs ++ w ∷ []) result }
    {
        match (self, s) {
            (_, Slot::Record) => self,
            (_, Slot::Closes(_)) => Place::Outside,
            (Place::Outside, Slot::Opens(number)) => Place::Inside {
                number,
                first: next,
            },
            // As it was, so that a loop which passes slots writes nothing.
            (Place::Outside, _) => self,
            _ => Place::Lost,
        }
    }

    // The first record of the group that a mark in slot k closes by the number n, if its records count then: all slots from it on.
    pub fn closed(self, n: u8, k: usize) -> Option<usize>
        ensures { (at : Standing) (xs : List Word) → Stands at xs self → length xs ≡ k
            → MatchOption result (is_closed at n ≡ false)
            (λ first. (is_closed at n ≡ true) × (first ≤ k) × (counted at (closes n) ≡ as_records (drop first xs))) }
    {
        match self {
            Place::Inside { number, first }
                if number == n && k.saturating_sub(first) == n as usize => Some(first),
            _ => None,
        }
    }
}
