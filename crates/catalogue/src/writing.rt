ghost use Rattle.std.specs.Prelude.{◌≡◌, ◌*◌, ◌≤◌, [], ◌∷◌, ◌++◌, length, codes, decimal};
ghost use Rattle.std.specs.Option.{option_map};
ghost use Rattle.fields.specs.Texts.{numbers_text, keyed_text};
ghost use Rattle.catalogue.specs.Cells.{rows_of, rules_of, catalogue_of};
ghost use Rattle.catalogue.specs.Headed.{head_text};
ghost use Rattle.catalogue.specs.Listed.{listed, rule_in};
ghost use Rattle.catalogue.specs.Storing.{held};
ghost use Rattle.catalogue.specs.Writing.{line, standing_word, kind_words, slot_text, slots_text, rows_text, rule_text, rules_text, text_of};

use crate::cells::{RuleCells, slots_of_cells, take_catalogue, take_rule};
use crate::model::{Kind, Slot};
use crate::room::Room;
use crate::slots::Slots;
use itoa::{Buffer, Integer};

// A text, of at most 65,536 bytes.
pub(crate) type Text = Room<u8, 65536>;

// A number in decimal.
fn put_number<I: Integer>(out: &mut Text, n: I)
    ensures { out.new.items ≡ held 65536 out.old.items (I.text n) }
{
    let mut buffer = Buffer::new();
    out.keep(buffer.format(n).as_bytes());
}

// Numbers, one space apart.
fn put_numbers(out: &mut Text, numbers: &[u16])
    ensures { out.new.items ≡ held 65536 out.old.items (numbers_text numbers.now) }
{
    if let Some((first, others)) = numbers.split_first() {
        put_number(out, *first);
        for n in others {
            out.keep(b" ");
            put_number(out, *n);
        }
    }
}

// A line that ends with a number.
#[tactic(auto, using(crate::proofs::Helds::joins))]
fn put_number_line<I: Integer>(out: &mut Text, start: &[u8], n: I)
    ensures { out.new.items ≡ held 65536 out.old.items (line (start.now ++ I.text n) []) }
{
    out.keep(start);
    put_number(out, n);
    out.keep(b"\n");
}

// A line that ends with numbers.
#[tactic(auto, using(crate::proofs::Helds::joins))]
fn put_list(out: &mut Text, start: &[u8], numbers: &[u16])
    ensures { out.new.items ≡ held 65536 out.old.items (line (start.now ++ numbers_text numbers.now) []) }
{
    out.keep(start);
    put_numbers(out, numbers);
    out.keep(b"\n");
}

// What ends a slot's line.
fn standing_end(standard: bool) -> &'static [u8]
    ensures { result.now ≡ 32 ∷ line (standing_word standard) [] }
{
    if standard {
        b" standard\n"
    } else {
        b" optional\n"
    }
}

// A slot's line.
#[tactic(auto, using(crate::proofs::Helds::joins))]
fn put_slot(out: &mut Text, slot: Slot)
    ensures { out.new.items ≡ held 65536 out.old.items (line (slot_text slot) []) }
{
    out.keep(b"slot=");
    put_number(out, slot.parts);
    out.keep(standing_end(slot.standard));
}

// The lines of slots.
fn put_slots(out: &mut Text, slots: &Slots)
    ensures { out.new.items ≡ held 65536 out.old.items (slots_text (listed slots.now) []) }
{
    for slot in slots.as_slice() {
        put_slot(out, *slot);
    }
}

// The line of a rule's kind.
fn put_kind(out: &mut Text, kind: Kind)
    ensures { out.new.items ≡ held 65536 out.old.items (line (keyed_text (codes "rule") (kind_words kind)) []) }
{
    match kind {
        Kind::Goes => out.keep(b"rule=goes\n"),
        Kind::Needs(t) => put_number_line(out, b"rule=needs ", t),
        Kind::Bars(t) => put_number_line(out, b"rule=bars ", t),
    }
}

// The lines of so many rows.
fn put_rows(out: &mut Text, count: usize, wide: usize, rows: &[u16])
    requires { count * wide ≤ length rows.now }
    ensures { out.new.items ≡ held 65536 out.old.items (rows_text (rows_of count wide rows.now) []) }
{
    // By cuts, since chunks ask for a width above 0.
    let mut left = rows;
    for _ in 0..count {
        let (row, others) = left.split_at(wide);
        put_list(out, b"row=", row);
        left = others;
    }
}

// The lines of a rule.
fn put_rule(out: &mut Text, rule: RuleCells)
    requires { rule.count * length rule.slots.now ≤ length rule.rows.now }
    ensures { out.new.items ≡ held 65536 out.old.items (rule_text (rule_in rule.entry) []) }
{
    put_kind(out, rule.kind);
    put_list(out, b"of=", rule.slots);
    put_number_line(out, b"rows=", rule.count);
    put_rows(out, rule.count, rule.slots.len(), rule.rows);
}

// The lines before the rules.
fn put_head(out: &mut Text, mark: u16, slots: &Slots, rules: u16)
    ensures { out.new.items ≡ held 65536 out.old.items (head_text mark (listed slots.now) rules) }
{
    put_number_line(out, b"mark=", mark);
    put_number_line(out, b"slots=", slots.used());
    put_slots(out, slots);
    put_number_line(out, b"rules=", rules);
}

// The text of the lawful rules that are all the cells.
fn put_rules(out: &mut Text, slots: &Slots, count: u16, cells: &[u16]) -> Option<()>
    ensures { option_map (λ _. out.new.items) result ≡ option_map (λ rs. held 65536 out.old.items (rules_text rs [])) (rules_of count (listed slots.now) cells.now) }
{
    let mut left = cells;
    for _ in 0..count {
        let (rule, after) = take_rule(left, slots)?;
        put_rule(out, rule);
        left = after;
    }
    // By an `if`, since the proof shows its two ends apart, and did not close over `then_some`.
    if left.is_empty() { Some(()) } else { None }
}

// The text of the lawful catalogue that the cells say.
pub(crate) fn put_catalogue(out: &mut Text, cells: &[u16]) -> Option<()>
    ensures { option_map (λ _. out.new.items) result ≡ option_map (λ c. held 65536 out.old.items (text_of c)) (catalogue_of cells.now) }
{
    let catalogue = take_catalogue(cells)?;
    let slots = slots_of_cells(catalogue.slots)?;
    put_head(out, catalogue.mark, &slots, catalogue.count);
    put_rules(out, &slots, catalogue.count, catalogue.rules)
}
