// The two programs that share a store (S14): which addresses each owns, and how many it may come to hold.

#![tactic(auto)]

ghost use Rattle.std.specs.Prelude.{◌≡◌};
ghost use Rattle.rules.specs.Owner.{named_owner};
ghost use Rattle.owners.specs.Read.{as_owner};

// The first address of the timer's; those before it are the handset's.
pub const TIMER_FIRST: u16 = 32768;

#[derive(Clone, Copy, Debug, PartialEq, Eq)]
pub enum Owner {
    Handset,
    Timer,
}

// A caller says whether it is the timer.
impl From<bool> for Owner {
    fn from(timer: bool) -> Owner
        ensures { as_owner result ≡ named_owner timer }
    {
        if timer { Owner::Timer } else { Owner::Handset }
    }
}

impl Owner {
    #[tactic(auto, using(rules::proofs::Owners::timer_owns, rules::proofs::Owners::handset_owns))]
    pub fn owns(self, address: u16) -> bool
        ensures { result ≡ (as_owner self).owns address }
    {
        match self {
            Owner::Handset => address < TIMER_FIRST,
            Owner::Timer => TIMER_FIRST <= address,
        }
    }

    // How many addresses it may come to hold.
    pub fn most(self) -> usize
        ensures { result ≡ (as_owner self).most }
    {
        128
    }
}
