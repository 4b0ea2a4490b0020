ghost use Rattle.std.specs.Prelude.{◌≡◌, ◌+◌, ◌≤◌, map, length, drop, is_some, IfSome, OnSome};
ghost use Rattle.std.specs.Option.{option_map};
ghost use Rattle.fields.specs.Results.{and_then};
ghost use Rattle.catalogue.specs.Cells.{cut_cells, rows_of, rule_begun, rule_of, rules_of, catalogue_of};
ghost use Rattle.catalogue.specs.Lawful.{all, offered, row_lawful, rule_lawful};
ghost use Rattle.catalogue.specs.Listed.{listed, rule_in, slots_in, catalogue_in};
ghost use Rattle.catalogue.specs.Outcomes.{lawful_cells};

use crate::checks::{all_used, kind_fits, rise, row_fits, stands_apart};
use crate::model::{Kind, Slot};
use crate::slots::Slots;
use fields::numbers::Numbers;

// A catalogue as cells have it: its mark, its slots, how many rules it has, and the rules one after another.
#[derive(Clone, Copy)]
pub struct CatalogueCells<'a> {
    pub mark: u16,
    pub slots: &'a [u16],
    pub count: u16,
    pub rules: &'a [u16],
}

// A rule as cells have it: its kind, its slots, how many rows it has, and the rows one after another.
#[derive(Clone, Copy)]
pub struct RuleCells<'a> {
    pub kind: Kind,
    pub slots: &'a [u16],
    pub count: usize,
    pub rows: &'a [u16],
}

// The first n cells, and those after them.
fn cut_cells(cells: &[u16], n: usize) -> Option<(&[u16], &[u16])>
    ensures { option_map (λ x. (x.0.now, x.1.now)) result ≡ cut_cells n cells.now }
{
    cells.split_at_checked(n)
}

// The slots of at most 24 cells, at least one of them standard.
pub fn slots_of_cells(cells: &[u16]) -> Option<Slots>
    ensures { option_map listed result ≡ slots_in cells.now }
{
    if cells.len() > 24 {
        return None;
    }
    let mut slots = Slots::none();
    for cell in cells {
        slots.push(Slot::of_cell(*cell)?);
    }
    slots.any_standard().then_some(slots)
}

// Has each of so many rows a part for each of these slots that the slot offers?
fn rows_fit(slots: &Slots, of: &[u32], count: usize, rows: &[u16]) -> bool
    requires { length of.now ≤ 4 }
    ensures { result ≡ all (row_lawful (map (offered (listed slots.now)) of.now)) (rows_of count (length of.now) rows.now) }
{
    // By cuts, since chunks ask for a width above 0 and leave out a row that is cut short; a closure for a lack would hold the rest of the loop.
    let mut left = rows;
    for _ in 0..count {
        let Some((row, after)) = cut_cells(left, of.len()) else {
            return false;
        };
        let Some(row) = Numbers::of_cells(row) else {
            return false;
        };
        if !row_fits(slots, of, row.as_slice()) {
            return false;
        }
        left = after;
    }
    true
}

// Is the rule lawful over these slots?
fn rule_fits(slots: &Slots, rule: RuleCells) -> bool
    ensures { result ≡ rule_lawful (listed slots.now) (rule_in rule.entry) }
{
    // By a `let`: with the rest in a closure the proof did not close.
    let Some(of) = Numbers::of_cells(rule.slots) else {
        return false;
    };
    let of = of.as_slice();
    let used = slots.used();
    !of.is_empty()
        && rule.count <= 255
        && kind_fits(rule.kind, used)
        && all_used(of, used)
        && rise(of)
        && stands_apart(rule.kind, of)
        && rows_fit(slots, of, rule.count, rule.rows)
}

// The rule that begins cells, lawful or not, and the cells after it.
pub fn begin_rule<'a>(cells: &'a [u16]) -> Option<(RuleCells<'a>, &'a [u16])>
    ensures { option_map (λ x. (rule_in x.0, x.1.now)) result ≡ rule_begun cells.now }
{
    // One pattern for three cells, in place of three cuts.
    let [kind, t, arity, rest @ ..] = cells else {
        return None;
    };
    let kind = Kind::of_cells(*kind, *t)?;
    let wide = usize::from(*arity);
    let (own, after) = cut_cells(rest, wide)?;
    let (count, after) = after.split_first()?;
    let count = usize::from(*count);
    let (rows, after) = cut_cells(after, count * wide)?;
    let rule = RuleCells {
        kind,
        slots: own,
        count,
        rows,
    };
    Some((rule, after))
}

// The lawful rule that begins cells, and the cells after it.
pub fn take_rule<'a>(cells: &'a [u16], slots: &Slots) -> Option<(RuleCells<'a>, &'a [u16])>
    ensures { option_map (λ x. (rule_in x.0, x.1.now)) result ≡ rule_of (listed slots.now) cells.now }
{
    let (rule, after) = begin_rule(cells)?;
    rule_fits(slots, rule).then_some((rule, after))
}

// Goes over so many lawful rules, which are all the cells, or there is none.
fn pass_rules(slots: &Slots, count: u16, cells: &[u16]) -> Option<()>
    ensures { is_some result ≡ is_some (rules_of count (listed slots.now) cells.now) }
{
    let mut left = cells;
    for _ in 0..count {
        let (_, after) = take_rule(left, slots)?;
        left = after;
    }
    left.is_empty().then_some(())
}

// At most 8,192 cells, taken apart as those of a catalogue of at most 64 rules: its slots and rules are not looked at.
pub fn take_catalogue<'a>(cells: &'a [u16]) -> Option<CatalogueCells<'a>>
    ensures few { IfSome result (λ c. (c.mark ≤ 65535) × (c.count ≤ 64)) }
    ensures within { OnSome result (length cells.now ≤ 8192) }
    ensures rules { IfSome result (λ c. c.rules.now ≡ drop (3 + length c.slots.now) cells.now) }
    ensures value { and_then result catalogue_in ≡ catalogue_of cells.now }
{
    // One pattern for two cells, in place of two cuts.
    let [mark, used, rest @ ..] = cells else {
        return None;
    };
    let (slots, after) = cut_cells(rest, usize::from(*used))?;
    let (count, rules) = after.split_first()?;
    if cells.len() > 8192 || *count > 64 {
        return None;
    }
    Some(CatalogueCells {
        mark: *mark,
        slots,
        count: *count,
        rules,
    })
}

// The slots of lawful cells.
pub fn lawful_slots(cells: &[u16]) -> Option<Slots>
    ensures { option_map listed result ≡ option_map (λ c. c.slots) (catalogue_of cells.now) }
{
    let catalogue = take_catalogue(cells)?;
    let slots = slots_of_cells(catalogue.slots)?;
    pass_rules(&slots, catalogue.count, catalogue.rules)?;
    Some(slots)
}

// Are cells those of a lawful catalogue?
pub fn is_lawful(cells: &[u16]) -> bool
    ensures { result ≡ lawful_cells cells.now }
{
    lawful_slots(cells).is_some()
}
