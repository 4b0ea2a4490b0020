ghost use Rattle.std.specs.Prelude.{◌≡◌, ◌≤◌, map, IfOk};
ghost use Rattle.std.specs.Option.{option_map};
ghost use Rattle.fields.specs.Values.{place_of, values_of};
ghost use Rattle.fields.specs.Results.{mapped_ok, beside};
ghost use Rattle.catalogue.specs.Listed.{listed};
ghost use Rattle.catalogue.specs.Lawful.{offered};
ghost use Rattle.catalogue.specs.Reading.{number_line, standing, slot_value, slot_line, word_number, kind_value, kind_line, of_line, row_value, row_line};

use crate::checks::{all_used, kind_fits, rise, row_fits, stands_apart};
use crate::model::{Kind, Slot};
use crate::slots::Slots;
use fields::fault::{Fault, FaultKind};
use fields::number::{number, whole_number};
use fields::numbers::{Numbers, past_space};
use fields::reader::Reader;
use fields::word::past_word;

// The line key=number, its number within bounds: two numbers, since a range that was iterated to its end holds none.
pub(crate) fn number_line(
    reader: &mut Reader,
    key: &[u8],
    low: u32,
    high: u32,
) -> Result<u32, Fault>
    ensures within { IfOk result (λ n. (low ≤ n) × (n ≤ high)) }
    ensures value { beside result (place_of reader.new) ≡ number_line key.now low high (place_of reader.old) }
{
    let line = reader.line();
    let value = reader.value_of(key)?;
    let n = whole_number(value, 99_999u32).ok_or(FaultKind::WrongForm.at(line))?;
    if !(low..=high).contains(&n) {
        return Err(FaultKind::OutOfRange.at(line));
    }
    Ok(n)
}

// Does the word say standard or optional?
fn is_standard(word: &[u8]) -> Option<bool>
    ensures { result ≡ standing word.now }
{
    match word {
        b"standard" => Some(true),
        b"optional" => Some(false),
        _ => None,
    }
}

// Parts and a word: how many, and whether the slot is standard.
fn slot_of(text: &[u8]) -> Option<(u32, bool)>
    ensures { option_map (λ x. record { parts = x.0; standard = x.1 }) result ≡ slot_value text.now }
{
    let (parts, after) = number(text, 99_999u32)?;
    let word = past_space(after)?;
    Some((parts, is_standard(word)?))
}

// A slot's line, its part count within bounds.
#[inline]
pub(crate) fn slot_line(reader: &mut Reader) -> Result<Slot, Fault>
    ensures { beside result (place_of reader.new) ≡ slot_line (place_of reader.old) }
{
    let line = reader.line();
    let value = reader.value_of(b"slot")?;
    let (parts, standard) = slot_of(value).ok_or(FaultKind::WrongForm.at(line))?;
    if !(1..=15).contains(&parts) {
        return Err(FaultKind::OutOfRange.at(line));
    }
    Ok(Slot {
        // By a cast: five digits are read, whose range is asked only then.
        parts: parts as u16,
        standard,
    })
}

// The number after a word and one space.
fn word_number(word: &[u8], text: &[u8]) -> Option<u32>
    ensures { result ≡ word_number word.now text.now }
{
    whole_number(past_space(past_word(text, word)?)?, 99_999u32)
}

fn kind_of(text: &[u8]) -> Option<Kind>
    ensures { result ≡ kind_value text.now }
{
    match text {
        b"goes" => Some(Kind::Goes),
        _ => word_number(b"needs", text)
            .map(Kind::Needs)
            .or_else(|| word_number(b"bars", text).map(Kind::Bars)),
    }
}

// The line that begins a rule: its kind, with t a used slot.
#[inline]
pub(crate) fn kind_line(reader: &mut Reader, used: u32) -> Result<Kind, Fault>
    ensures { beside result (place_of reader.new) ≡ kind_line used (place_of reader.old) }
{
    let line = reader.line();
    let value = reader.value_of(b"rule")?;
    let kind = kind_of(value).ok_or(FaultKind::WrongForm.at(line))?;
    if !kind_fits(kind, used) {
        return Err(FaultKind::OutOfRange.at(line));
    }
    Ok(kind)
}

// The line of a rule's slots: used, rising, and without t.
#[inline]
pub(crate) fn of_line(reader: &mut Reader, used: u32, kind: Kind) -> Result<Numbers, Fault>
    ensures { beside (mapped_ok values_of result) (place_of reader.new) ≡ of_line used kind (place_of reader.old) }
{
    let line = reader.line();
    let value = reader.value_of(b"of")?;
    let slots = Numbers::read(value).ok_or(FaultKind::WrongForm.at(line))?;
    if !all_used(slots.as_slice(), used) {
        return Err(FaultKind::OutOfRange.at(line));
    }
    if !rise(slots.as_slice()) {
        return Err(FaultKind::SlotsNotRising.at(line));
    }
    if !stands_apart(kind, slots.as_slice()) {
        return Err(FaultKind::TargetAmongSlots.at(line));
    }
    Ok(slots)
}

// So many numbers.
#[inline(always)]
fn row_of(text: &[u8], wide: usize) -> Option<Numbers>
    ensures { option_map values_of result ≡ row_value wide text.now }
{
    Numbers::read(text).filter(|row| row.as_slice().len() == wide)
}

// A row's line: a part for each of the rule's slots, among those that the slot offers.
#[inline(always)]
pub(crate) fn row_line(reader: &mut Reader, slots: &Slots, of: &[u32]) -> Result<Numbers, Fault>
    ensures { beside (mapped_ok values_of result) (place_of reader.new) ≡ row_line (map (offered (listed slots.now)) of.now) (place_of reader.old) }
{
    let line = reader.line();
    let value = reader.value_of(b"row")?;
    let row = row_of(value, of.len()).ok_or(FaultKind::WrongForm.at(line))?;
    if !row_fits(slots, of, row.as_slice()) {
        return Err(FaultKind::OutOfRange.at(line));
    }
    Ok(row)
}
