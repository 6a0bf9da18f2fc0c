// The answers as C has them: the number first, which is 0 if the call is not refused. What a refusal does not answer is 0 or false.

ghost use Rattle.std.specs.Prelude.{◌≡◌, List, ℕ, map};
ghost use Rattle.rules.specs.Call.{pairing};
ghost use Rattle.settings.specs.Held.{as_option};
ghost use Rattle.reading.specs.Answers.{as_reading as reading_of, as_pairing as pairing_of};
ghost use Rattle.writing.specs.Answers.{as_stepped as stepped_of};
ghost use Rattle.istrovell.specs.Answers.{as_reading, as_pairing, as_stepped};

use reading::{BLANK, Code};
use survey::Refusal;
use writing::Outcome;

// N0. The number of an answer that is no refusal.
pub const OK: u8 = 0;

#[repr(C)]
#[derive(Clone, Copy, Debug, PartialEq, Eq)]
pub struct Reading {
    pub number: u8,
    pub value: u8,
}

impl From<Result<u8, Refusal>> for Reading {
    ghost from_gives = { λ answer c. as_reading c ≡ reading_of answer };

    fn from(answer: Result<u8, Refusal>) -> Reading {
        match answer {
            Ok(value) => Reading { number: OK, value },
            Err(refusal) => Reading {
                number: refusal.number(),
                value: 0,
            },
        }
    }
}

#[repr(C)]
#[derive(Clone, Copy, Debug, PartialEq, Eq)]
pub struct Pairing {
    pub number: u8,
    pub paired: bool,
    pub digit0: u8,
    pub digit1: u8,
    pub digit2: u8,
    pub digit3: u8,
}

// C19. Paired if all four digits are held, whatever their values; one that is not held is blank.
fn paired(code: Code) -> Pairing
    ensures { as_pairing result ≡ pairing (map as_option code) }
{
    let [digit0, digit1, digit2, digit3] = code;
    Pairing {
        number: OK,
        paired: digit0.is_some() & digit1.is_some() & digit2.is_some() & digit3.is_some(),
        digit0: digit0.unwrap_or(BLANK),
        digit1: digit1.unwrap_or(BLANK),
        digit2: digit2.unwrap_or(BLANK),
        digit3: digit3.unwrap_or(BLANK),
    }
}

impl From<Result<Code, Refusal>> for Pairing {
    ghost from_gives = { λ answer c. as_pairing c ≡ pairing_of answer };

    fn from(answer: Result<Code, Refusal>) -> Pairing {
        match answer {
            Ok(code) => paired(code),
            Err(refusal) => Pairing {
                number: refusal.number(),
                paired: false,
                digit0: 0,
                digit1: 0,
                digit2: 0,
                digit3: 0,
            },
        }
    }
}

#[repr(C)]
#[derive(Clone, Copy, Debug, PartialEq, Eq)]
pub struct Stepped {
    pub number: u8,
    pub finished: bool,
    pub steps: u16,
}

impl From<Result<Outcome, Refusal>> for Stepped {
    ghost from_gives = { λ answer c. (image : List ℕ) → as_stepped c image ≡ stepped_of answer image };

    fn from(answer: Result<Outcome, Refusal>) -> Stepped {
        match answer {
            Ok(outcome) => Stepped {
                number: OK,
                finished: outcome.finished,
                steps: outcome.steps,
            },
            Err(refusal) => Stepped {
                number: refusal.number(),
                finished: false,
                steps: 0,
            },
        }
    }
}
