// The settings of a change, lent as bytes (C1): three for each, its address, low byte first, and its value.

#![tactic(auto)]

ghost use Rattle.std.specs.Prelude.{◌≡◌, cond, map, ◌+◌, ◌*◌, ◌≤◌, length, drop};
ghost use Rattle.rules.specs.Store.{address_of};
ghost use Rattle.rules.specs.Owner.{a_foreign};
ghost use Rattle.rules.specs.Call.{among, repeats, a_wrong_address, triples};
ghost use Rattle.owners.specs.Read.{as_owner};
ghost use Rattle.changes.specs.Entries.{byte_address, byte_value};

mod change;

pub use change::Change;
use owners::Owner;
use words::NO_ADDRESS;

// The address of the k-th setting, and its value.
pub fn address_at(entries: &[u8], k: usize) -> u16
    requires { 3 * k + 3 ≤ length entries.now }
    ensures { result ≡ byte_address entries.now k }
{
    u16::from_le_bytes([entries[3 * k], entries[3 * k + 1]])
}

pub fn value_at(entries: &[u8], k: usize) -> u8
    requires { 3 * k + 3 ≤ length entries.now }
    ensures { result ≡ byte_value entries.now k }
{
    entries[3 * k + 2]
}

// Whether a setting from the k-th on has the address.
pub fn names_from(entries: &[u8], k: usize, address: u16) -> bool
    requires { 3 * k ≤ length entries.now }
    ensures { result ≡ among address (map address_of (drop k (triples entries.now))) }
{
    (k..entries.len() / 3).any(|i| address_at(entries, i) == address)
}

// Whether an address comes twice.
pub fn repeats(entries: &[u8]) -> bool
    ensures { result ≡ repeats (map address_of (triples entries.now)) }
{
    (0..entries.len() / 3).any(|i| names_from(entries, i + 1, address_at(entries, i)))
}

// N5. Whether an address is none that can be written.
pub fn a_wrong_address(entries: &[u8]) -> bool
    ensures { result ≡ a_wrong_address (triples entries.now) }
{
    (0..entries.len() / 3).any(|i| NO_ADDRESS <= address_at(entries, i))
}

// N11. Whether an address is the other owner's.
pub fn a_foreign(entries: &[u8], owner: Owner) -> bool
    ensures { result ≡ a_foreign (as_owner owner) (triples entries.now) }
{
    (0..entries.len() / 3).any(|i| !owner.owns(address_at(entries, i)))
}

impl Change<'_> {
    // C21. How many slots it takes.
    #[tactic(auto, using(crate::proofs::Entries::length_triples))]
    pub fn slots(&self) -> usize
        ensures { result ≡ cond self.now.marks (length (triples self.now.entries.now) + 2) (length (triples self.now.entries.now)) }
    {
        let n = self.entries.len() / 3;
        if self.marks { n + 2 } else { n }
    }
}
