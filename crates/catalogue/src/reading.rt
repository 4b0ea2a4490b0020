ghost use Rattle.std.specs.Prelude.{◌≡◌, ◌≤◌, map, IfOk};
ghost use Rattle.std.specs.List.{flat_map};
ghost use Rattle.fields.specs.Results.{mapped_ok, beside};
ghost use Rattle.fields.specs.Values.{place_of};
ghost use Rattle.catalogue.specs.Cells.{rule_cells, cells_of};
ghost use Rattle.catalogue.specs.Lawful.{offered};
ghost use Rattle.catalogue.specs.Listed.{listed};
ghost use Rattle.catalogue.specs.Reading.{slots_lines, rows_lines, rule_lines, rules_lines, head_lines, reading};
ghost use Rattle.catalogue.specs.Keeping.{kept, stored};

use crate::lines::{kind_line, number_line, of_line, row_line, slot_line};
use crate::slots::Slots;
use crate::storing::{Kept, keep_catalogue_head, keep_rule_head};
use fields::fault::{Fault, FaultKind};
use fields::reader::Reader;

// The lines of the used slots.
fn slots_lines(reader: &mut Reader, used: u32) -> Result<Slots, Fault>
    requires { used ≤ 24 }
    ensures { beside (mapped_ok listed result) (place_of reader.new) ≡ slots_lines used (place_of reader.old) }
{
    let mut slots = Slots::none();
    for _ in 0..used {
        slots.push(slot_line(reader)?);
    }
    Ok(slots)
}

// The lines of a rule's rows, their cells kept.
#[inline]
fn rows_lines<const N: usize>(
    reader: &mut Reader,
    slots: &Slots,
    of: &[u32],
    rows: u32,
    out: &mut Kept<N>,
) -> Result<(), Fault>
    ensures { mapped_ok (λ _. (out.new, place_of reader.new)) result ≡ mapped_ok (stored (flat_map (λ row. row)) out.old) (rows_lines rows (map (offered (listed slots.now)) of.now) (place_of reader.old)) }
{
    for _ in 0..rows {
        let row = row_line(reader, slots, of)?;
        out.extend(row.as_slice());
    }
    Ok(())
}

// A rule's lines, its cells kept.
fn rule_lines<const N: usize>(
    reader: &mut Reader,
    slots: &Slots,
    out: &mut Kept<N>,
) -> Result<(), Fault>
    ensures { mapped_ok (λ _. (out.new, place_of reader.new)) result ≡ mapped_ok (stored rule_cells out.old) (rule_lines (listed slots.now) (place_of reader.old)) }
{
    let used = slots.used();
    let kind = kind_line(reader, used)?;
    let of = of_line(reader, used, kind)?;
    let rows = number_line(reader, b"rows", 0, 255)?;
    keep_rule_head(out, kind, &of, rows);
    rows_lines(reader, slots, of.as_slice(), rows, out)
}

// The lines of rules, their cells kept.
fn rules_lines<const N: usize>(
    reader: &mut Reader,
    slots: &Slots,
    rules: u32,
    out: &mut Kept<N>,
) -> Result<(), Fault>
    ensures { mapped_ok (λ _. (out.new, place_of reader.new)) result ≡ mapped_ok (stored (flat_map rule_cells) out.old) (rules_lines rules (listed slots.now) (place_of reader.old)) }
{
    for _ in 0..rules {
        rule_lines(reader, slots, out)?;
    }
    Ok(())
}

// What stands before the rules.
#[derive(Clone, Copy)]
struct Head {
    mark: u32,
    slots: Slots,
    rules: u32,
}

#[inline]
fn head_lines(reader: &mut Reader) -> Result<Head, Fault>
    ensures few { IfOk result (λ h. h.rules ≤ 64) }
    ensures value { beside (mapped_ok (λ h. (h.mark, listed h.slots, h.rules)) result) (place_of reader.new) ≡ head_lines (place_of reader.old) }
{
    let mark = number_line(reader, b"mark", 0, 65_535)?;
    let used = number_line(reader, b"slots", 1, 24)?;
    let slots = slots_lines(reader, used)?;
    if !slots.any_standard() {
        return Err(FaultKind::NoStandardSlot.at(2 + used));
    }
    let rules = number_line(reader, b"rules", 0, 64)?;
    Ok(Head { mark, slots, rules })
}

// A text's cells, kept.
pub(crate) fn read_text<const N: usize>(text: &[u8], out: &mut Kept<N>) -> Result<(), Fault>
    ensures { mapped_ok (λ _. out.new) result ≡ mapped_ok (λ c. kept out.old (cells_of c)) (reading text.now) }
{
    let mut reader = Reader::open(text)?;
    let head = head_lines(&mut reader)?;
    keep_catalogue_head(out, head.mark, &head.slots, head.rules);
    rules_lines(&mut reader, &head.slots, head.rules, out)?;
    if !reader.is_end() {
        return Err(FaultKind::TextAfterEnd.at(reader.line()));
    }
    Ok(())
}
