// The form of a store's pages, and the chip that has such pages.

ghost use Rattle.std.specs.Prelude.{◌≤◌};
ghost use Rattle.pages.specs.Sizes.{Fits};

// The form of a store's pages: how many slots a page has behind its three header words, and the third byte of its wear word, which
// is a number and not an enum, as words::in_slot says.
#[derive(Clone, Copy)]
pub struct Form {
    pub slots: usize,
    pub edition: u8,
    pub ghost fits: { Fits slots },
}

// P1. A chip: how many slots its pages have, and the first and the last edition that they may be of.
#[derive(Clone, Copy)]
pub struct Chip {
    pub slots: usize,
    pub first: u8,
    pub last: u8,
    pub ghost fits: { Fits slots },
    pub ghost editions: { (1 ≤ first) },
    pub ghost rising: { first ≤ last },
}
