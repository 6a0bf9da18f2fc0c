// The calls that leave the image as it is: read, blank read and pairing lookup. An image of any length and content is lawful.

#![tactic(auto)]

ghost use Rattle.std.specs.Prelude.{◌≡◌};
ghost use Rattle.rules.specs.Call.{read, blank_read, lookup};
ghost use Rattle.pages.specs.Read.{as_form};
ghost use Rattle.owners.specs.Read.{as_owner};
ghost use Rattle.reading.specs.Answers.{as_reading, as_pairing};

use owners::Owner;
use pages::Form;
use settings::Table;
use survey::Refusal;
use words::NO_ADDRESS;

// What a blank read gives of an address that is not held.
pub const BLANK: u8 = 0;

// The addresses of the digits of the pairing code.
const DIGITS: [u16; 4] = [16, 17, 18, 19];

// The digits, where they are held.
pub type Code = [Option<u8>; 4];

// C17. Read: the value of the address.
#[tactic(auto, using(crate::proofs::Readings::last, crate::proofs::Readings::foreign, crate::proofs::Readings::looked_up))]
pub fn read(image: &[u8], form: Form, owner: Owner, address: u16) -> Result<u8, Refusal>
    ensures { as_reading result ≡ read (as_form form) (as_owner owner) address image.now }
{
    let mut table = Table::new();
    store::open(image, form, &mut table)?;
    if address == NO_ADDRESS {
        return Err(Refusal::Address);
    }
    if !owner.owns(address) {
        return Err(Refusal::Owner);
    }
    table.value(address).ok_or(Refusal::NotHeld)
}

// C18. Blank read: what a read answers, and a blank of an address that is not held.
#[tactic(auto, using(crate::proofs::Readings::blank_of, crate::proofs::Readings::other_refused, crate::proofs::Readings::other_read))]
pub fn blank_read(image: &[u8], form: Form, owner: Owner, address: u16) -> Result<u8, Refusal>
    ensures { as_reading result ≡ blank_read (as_form form) (as_owner owner) address image.now }
{
    match read(image, form, owner, address) {
        Err(Refusal::NotHeld) => Ok(BLANK),
        reading => reading,
    }
}

// C19. Pairing lookup: the values at 16 to 19.
pub fn lookup(image: &[u8], form: Form) -> Result<Code, Refusal>
    ensures { as_pairing result ≡ lookup (as_form form) image.now }
{
    let mut table = Table::new();
    store::open(image, form, &mut table)?;
    Ok(DIGITS.map(|address| table.value(address)))
}
