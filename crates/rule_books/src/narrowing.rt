ghost use Rattle.std.specs.Prelude.{◌≡◌, ◌<◌, is_some};
ghost use Rattle.std.specs.Option.{unwrap_or};
ghost use Rattle.catalogue.specs.Listed.{rule_in};
ghost use Rattle.rule_books.specs.Exact.{some_in, exact};
ghost use Rattle.rule_books.specs.Narrowing.{beside_test};
ghost use Rattle.rule_books.specs.Rules.{at_slots, spares, rule_allows};
ghost use Rattle.rule_books.specs.Scope.{Aside};

use catalogue::model::Kind;
use kits::label::Label;
use kits::label_box::LabelBox;
use labelled::Labelled;
pub(crate) use rule::TableRule;
use rule::slot_number;
use wants::{Goes, Spares, Wants};

mod choices;
mod labelled;
mod members;
mod rule;
mod wants;

// Numbers that fill a slot.
const FILLED: u16 = 0xfffe;
// The number that leaves it empty.
const EMPTY: u16 = 1;

// Narrows the slots of a rule to the parts that are wanted.
#[inline(always)]
fn narrow_slots<W: Wants>(rule: TableRule, b: &mut LabelBox) -> Option<()>
    ensures fits { is_some result ≡ is_some (exact (λ f. W.passes (rule_in rule.entry.cells).rows (at_slots rule.entry.cells.slots.now f)) b.old.labels) }
    ensures after { b.new.labels ≡ unwrap_or (exact (λ f. W.passes (rule_in rule.entry.cells).rows (at_slots rule.entry.cells.slots.now f)) b.old.labels) b.old.labels }
{
    let labelled = Labelled::of(rule, b).narrowed::<W>()?;
    labelled.put(b);
    Some(())
}

// Is some choice for the slots of a rule no row, or one of them empty?
#[inline(always)]
fn can_spare(rule: TableRule, b: &LabelBox) -> bool
    ensures { result ≡ some_in (spares (rule_in rule.entry.cells).rows) (at_slots rule.entry.cells.slots.now b.now.labels) }
{
    let labelled = Labelled::of(rule, b);
    // The place past the last is that of no slot, so none is left out.
    labelled.other_empty(rule.cells.slots.len()) || labelled.some_no_row()
}

// Narrows by a rule that wants slot t to have a number of the mask where the parts are a row.
#[inline(always)]
fn narrow_beside(t: u32, mask: u16, rule: TableRule, b: &mut LabelBox) -> Option<()>
    requires { (t < 24) × (Aside t rule.cells.slots.now) }
    ensures fits { is_some result ≡ is_some (exact (beside_test t mask (rule_in rule.entry.cells)) b.old.labels) }
    ensures after { b.new.labels ≡ unwrap_or (exact (beside_test t mask (rule_in rule.entry.cells)) b.old.labels) b.old.labels }
{
    let slot = slot_number(t);
    let label = b.label(slot);
    let Some(met) = Label::new(label.bits() & mask) else {
        return narrow_slots::<Spares>(rule, b);
    };
    if met == label || can_spare(rule, b) {
        return Some(());
    }
    b.put(slot, met);
    Some(())
}

// Narrows the box by a rule, and leaves it where that fails.
#[inline(always)]
pub(crate) fn narrow_rule(rule: TableRule, b: &mut LabelBox) -> Option<()>
    ensures fits { is_some result ≡ is_some (exact (rule_allows (rule_in rule.entry.cells)) b.old.labels) }
    ensures after { b.new.labels ≡ unwrap_or (exact (rule_allows (rule_in rule.entry.cells)) b.old.labels) b.old.labels }
{
    match rule.cells.kind {
        Kind::Goes => narrow_slots::<Goes>(rule, b),
        Kind::Needs(t) => narrow_beside(t, FILLED, rule, b),
        Kind::Bars(t) => narrow_beside(t, EMPTY, rule, b),
    }
}
