// The listing of a store, as a text in a buffer of its own. Not by `write!`: no clause of `fmt` says that a write for which there is
// room succeeds, and the listing promises its text for every image.

#![tactic(auto)]

ghost use Rattle.std.specs.Prelude.{◌≡◌, map, ◌++◌, ◌+◌, ◌*◌, ◌≤◌, ◌<◌, length};
ghost use Rattle.arrayvec.specs.ArrayString.{array_string_len};
ghost use Rattle.rules.specs.Listing.{decimal, text_refused, line_end, setting_line, setting_lines, listing};
ghost use Rattle.pages.specs.Read.{as_form};
ghost use Rattle.settings.specs.Held.{as_setting};
ghost use Rattle.survey.specs.Refusals.{number_of};
ghost use Rattle.lines.specs.Told.{told_line};

use arrayvec::ArrayString;
use broken::Broken;
use itoa::{Buffer, Integer};
use pages::Form;
use settings::{HELD_MAX, Setting, Table};
use survey::{Look, Refusal};

// The most bytes of line one, and of the line of a setting, by the types of their numbers.
const FIRST_MAX: usize = 180;

const LINE_MAX: usize = 10;

// The most bytes of a listing.
pub const LISTING_MAX: usize = FIRST_MAX + HELD_MAX * LINE_MAX;

pub type Text = ArrayString<LISTING_MAX>;

const LINE_END: &str = "\n";

// A word, and a number behind it in decimal digits.
fn push_field<I: Integer>(text: &mut Text, word: &str, number: I)
    requires { array_string_len text.old + length word.now + I.MAX_STR_LEN ≤ LISTING_MAX }
    ensures bytes { text.new.bytes ≡ text.old.bytes ++ word.now ++ I.text number }
    ensures len { array_string_len text.new ≤ array_string_len text.old + length word.now + I.MAX_STR_LEN }
{
    text.push_str(word);
    let mut digits = Buffer::new();
    text.push_str(digits.format(number));
}

// Line one.
#[tactic(auto, using(crate::proofs::Decimal::decimal_is), unfolding(crate::specs::Told::told_line))]
fn first_line(look: &Look, held: usize, broken: Broken) -> Text
    requires pages { (look.now.count ≤ 32) × (look.now.used ≤ 32) × (look.now.cleared ≤ 32) × (look.now.order < 4194304) }
    requires slots { (held ≤ 192) × (broken.half + broken.spoiled ≤ 16288) }
    ensures bytes { result.bytes ≡ told_line look.now held broken }
    ensures len { array_string_len result ≤ FIRST_MAX }
{
    let mut text = Text::new();
    push_field(&mut text, "pages ", look.count);
    push_field(&mut text, " used ", look.used);
    push_field(&mut text, " cleared ", look.cleared);
    push_field(&mut text, " order ", look.order);
    push_field(&mut text, " held ", held);
    push_field(&mut text, " half ", broken.half);
    push_field(&mut text, " spoiled ", broken.spoiled);
    text.push_str(LINE_END);
    text
}

// The line of one setting.
#[tactic(auto, using(crate::proofs::Decimal::decimal_is, std::proofs::Common::append_assoc), unfolding(rules::specs::Listing::setting_line))]
fn push_setting(text: &mut Text, setting: Setting)
    requires { array_string_len text.old + LINE_MAX ≤ LISTING_MAX }
    ensures bytes { text.new.bytes ≡ text.old.bytes ++ setting_line (as_setting setting) }
    ensures len { array_string_len text.new ≤ array_string_len text.old + LINE_MAX }
{
    push_field(text, "", setting.address);
    push_field(text, " ", setting.value);
    let line_end = LINE_END;
    text.push_str(line_end);
}

// The lines of the settings, in their order.
#[tactic(auto, using(crate::proofs::Lines::no_line, crate::proofs::Lines::next_line))]
fn push_settings(text: &mut Text, settings: &[Setting])
    requires { (length settings.now ≤ 192) × (array_string_len text.old + length settings.now * LINE_MAX ≤ LISTING_MAX) }
    ensures { text.new.bytes ≡ text.old.bytes ++ setting_lines (map as_setting settings.now) }
{
    for setting in settings {
        push_setting(text, *setting);
    }
}

// The line of a refusal.
#[tactic(auto, using(crate::proofs::Decimal::decimal_is))]
fn refused(refusal: Refusal) -> Text
    ensures { result.bytes ≡ text_refused ++ decimal (number_of refusal) ++ line_end }
{
    let mut text = Text::new();
    push_field(&mut text, "refused ", refusal.number());
    text.push_str(LINE_END);
    text
}

// The listing of an image of any length and content.
#[tactic(auto, using(crate::proofs::Told::listed, crate::proofs::Told::not_listed, store::proofs::Values::pages_told, survey::proofs::Looking::told_few))]
pub fn list(image: &[u8], form: Form) -> Text
    ensures { result.bytes ≡ listing (as_form form) image.now }
{
    let mut table = Table::new();
    match store::open(image, form, &mut table) {
        Ok(store) => {
            let broken = broken::count(image, form, &store.look);
            let mut text = first_line(&store.look, table.len(), broken);
            push_settings(&mut text, table.as_slice());
            text
        }
        Err(refusal) => refused(refusal),
    }
}
