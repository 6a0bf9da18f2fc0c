// The library for C and Rust: the seven calls under their exported names. Each takes any image, any page size, either owner and any numbers, and
// its contract fixes every answer and every byte of the image after it; include/istrovell.h tells a firmware engineer the same.

#![tactic(auto)]

ghost use Rattle.std.specs.Prelude.{◌≡◌};
ghost use Rattle.rules.specs.Steps.{single};
ghost use Rattle.rules.specs.Call.{group_of};
ghost use Rattle.rules.specs.Named.{format_at, recover_at, write_at, read_at, blank_read_at, lookup_at};
ghost use Rattle.reading.specs.Answers.{as_reading as reading_of, as_pairing as pairing_of};
ghost use Rattle.writing.specs.Answers.{as_formatted as formatted_of, as_stepped as stepped_of};
ghost use Rattle.istrovell.specs.Demands.{Formats, Recovers, Writes, WritesGroup, Reads, BlankReads, LooksUp};

mod answers;

pub use answers::{OK, Pairing, Reading, Stepped};
use owners::Owner;
use pages::Chip;
use reading::Code;
use survey::Refusal;
use writing::Outcome;

// Each call at the page size that a caller names: the image is read by the form that it has there. What C gives and takes are numbers
// and bools: the owner is a bool up to here, and the allowance a number.

fn format(image: &mut [u8], page_size: u16, second: bool) -> Result<(), Refusal>
    ensures { formatted_of result image.new ≡ format_at page_size second image.old }
{
    let chip = pages::chip_of(page_size).ok_or(Refusal::Size)?;
    writing::format(image, chip.form(Chip::told(chip.first, chip.last, second)))
}

fn recover(image: &mut [u8], page_size: u16, allowance: u16) -> Result<Outcome, Refusal>
    ensures { stepped_of result image.new ≡ recover_at page_size allowance image.old }
{
    let form = survey::form_at(image, page_size)?;
    writing::recover(image, form, allowance)
}

fn write(
    image: &mut [u8],
    page_size: u16,
    timer: bool,
    address: u16,
    value: u8,
    allowance: u16,
) -> Result<Outcome, Refusal>
    ensures { stepped_of result image.new ≡ write_at page_size timer (single address value) allowance image.old }
{
    let form = survey::form_at(image, page_size)?;
    let owner = Owner::from(timer);
    writing::write(image, form, owner, address, value, allowance)
}

fn write_group(
    image: &mut [u8],
    page_size: u16,
    timer: bool,
    group: &[u8],
    allowance: u16,
) -> Result<Outcome, Refusal>
    ensures { stepped_of result image.new ≡ write_at page_size timer (group_of group.now) allowance image.old }
{
    let form = survey::form_at(image, page_size)?;
    let owner = Owner::from(timer);
    writing::write_group(image, form, owner, group, allowance)
}

fn read(image: &[u8], page_size: u16, timer: bool, address: u16) -> Result<u8, Refusal>
    ensures { reading_of result ≡ read_at page_size timer address image.now }
{
    let form = survey::form_at(image, page_size)?;
    let owner = Owner::from(timer);
    reading::read(image, form, owner, address)
}

fn blank_read(image: &[u8], page_size: u16, timer: bool, address: u16) -> Result<u8, Refusal>
    ensures { reading_of result ≡ blank_read_at page_size timer address image.now }
{
    let form = survey::form_at(image, page_size)?;
    let owner = Owner::from(timer);
    reading::blank_read(image, form, owner, address)
}

fn lookup(image: &[u8], page_size: u16) -> Result<Code, Refusal>
    ensures { pairing_of result ≡ lookup_at page_size image.now }
{
    let form = survey::form_at(image, page_size)?;
    reading::lookup(image, form)
}

#[unsafe(no_mangle)]
pub extern "C" fn istrovell_format(image: &mut [u8], page_size: u16, second: bool) -> u8
    ensures { Formats page_size second image.old result image.new }
{
    match format(image, page_size, second) {
        Ok(()) => OK,
        Err(refusal) => refusal.number(),
    }
}

#[unsafe(no_mangle)]
pub extern "C" fn istrovell_recover(image: &mut [u8], page_size: u16, allowance: u16) -> Stepped
    ensures { Recovers page_size allowance image.old result image.new }
{
    recover(image, page_size, allowance).into()
}

#[unsafe(no_mangle)]
pub extern "C" fn istrovell_write(
    image: &mut [u8],
    page_size: u16,
    timer: bool,
    address: u16,
    value: u8,
    allowance: u16,
) -> Stepped
    ensures { Writes page_size timer address value allowance image.old result image.new }
{
    write(image, page_size, timer, address, value, allowance).into()
}

#[unsafe(no_mangle)]
pub extern "C" fn istrovell_write_group(
    image: &mut [u8],
    page_size: u16,
    timer: bool,
    group: &[u8],
    allowance: u16,
) -> Stepped
    ensures { WritesGroup page_size timer group.now allowance image.old result image.new }
{
    write_group(image, page_size, timer, group, allowance).into()
}

#[unsafe(no_mangle)]
pub extern "C" fn istrovell_read(image: &[u8], page_size: u16, timer: bool, address: u16) -> Reading
    ensures { Reads page_size timer address image.now result }
{
    read(image, page_size, timer, address).into()
}

#[unsafe(no_mangle)]
pub extern "C" fn istrovell_blank_read(
    image: &[u8],
    page_size: u16,
    timer: bool,
    address: u16,
) -> Reading
    ensures { BlankReads page_size timer address image.now result }
{
    blank_read(image, page_size, timer, address).into()
}

#[unsafe(no_mangle)]
pub extern "C" fn istrovell_lookup(image: &[u8], page_size: u16) -> Pairing
    ensures { LooksUp page_size image.now result }
{
    lookup(image, page_size).into()
}
