// The refusals, by number.

ghost use Rattle.std.specs.Prelude.{◌≡◌};
ghost use Rattle.survey.specs.Refusals.{number_of};

// N1 to N9, N11.
#[derive(Clone, Copy, Debug, PartialEq, Eq)]
pub enum Refusal {
    Size = 1,
    NoStore = 2,
    Damaged = 3,
    Unclean = 4,
    Address = 5,
    NoRoom = 6,
    OrderEnd = 7,
    NotHeld = 8,
    Group = 9,
    Owner = 11,
}

impl Refusal {
    // The number by which a caller is answered.
    pub fn number(self) -> u8
        ensures { result ≡ number_of self }
    {
        self as u8
    }
}
