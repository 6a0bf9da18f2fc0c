// Prints the listing of the image that standard input holds (L1).

#![tactic(auto)]

ghost use Rattle.std.specs.Prelude.{◌≡◌};
ghost use Rattle.rules.specs.Call.{form_of};
ghost use Rattle.rules.specs.Listing.{listing};
ghost use Rattle.rules.specs.Named.{smaller_chip};

use lines::Text;
use pages::SMALLER;

// The numbers by which the operating system knows a program's input and output.
const STDIN_FILENO: i32 = 0;

const STDOUT_FILENO: i32 = 1;

// The listing of an image with pages of 1,024 bytes, read by its own edition (P10).
fn list(image: &[u8]) -> Text
    ensures { result.bytes ≡ listing (form_of smaller_chip image.now) image.now }
{
    let form = survey::form_of(image, SMALLER);
    lines::list(image, form)
}

fn main() {
    // One byte more than 32 pages: a longer input fills it, and is refused as one that is not whole pages.
    let mut bytes = [0u8; 32769];
    let n = io::read_full(STDIN_FILENO, &mut bytes);
    let text = list(&bytes[..n]);
    io::write_all(STDOUT_FILENO, text.as_bytes());
}
