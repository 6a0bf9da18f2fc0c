// The two steps, program and erase (F3): no other function changes an image. Each works on the part that is
// lent to it at its offset.

#![tactic(auto)]

ghost use Rattle.std.specs.Prelude.{◌≡◌, [], ◌∷◌, ◌+◌, ◌≤◌, length, take, drop, replicate};
ghost use Rattle.std.proofs.lemmas.List.Edits.{sets};

// Programs the half-word that the part begins with; only one that reads 65,535 may be programmed.
#[tactic(auto, using(crate::proofs::Lent::two_long))]
pub fn program(half: &mut [u8], low: u8, high: u8)
    requires { take 2 half.old ≡ 255 ∷ 255 ∷ [] }
    ensures { half.new ≡ sets half.old 0 (low ∷ high ∷ []) }
{
    half[0] = low;
    half[1] = high;
}

// Erases the page that the part is.
pub fn erase(page: &mut [u8])
    ensures { page.new ≡ replicate (length page.old) 255 }
{
    page.fill(255);
}

// Programs the half-word at an offset of the image.
#[tactic(auto, using(crate::proofs::Lent::two_past, crate::proofs::Lent::may_program_rest, crate::proofs::Lent::programmed_rest))]
pub fn program_at(image: &mut [u8], at: usize, low: u8, high: u8)
    requires { take 2 (drop at image.old) ≡ 255 ∷ 255 ∷ [] }
    ensures { image.new ≡ sets image.old at (low ∷ high ∷ []) }
{
    program(&mut image[at..], low, high);
}

// Erases the page of a size at an offset of the image.
#[tactic(auto, using(crate::proofs::Lent::erased_sized))]
pub fn erase_at(image: &mut [u8], at: usize, size: usize)
    requires { at + size ≤ length image.old }
    ensures { image.new ≡ sets image.old at (replicate size 255) }
{
    erase(&mut image[at..at + size]);
}
