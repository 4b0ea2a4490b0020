ghost use Rattle.std.specs.Prelude.{◌≡◌, ◌<◌};
ghost use Rattle.rule_books.specs.Listed.{listed};
ghost use Rattle.rule_books.specs.Rules.{at_slots};
ghost use Rattle.rule_books.specs.Scope.{put_at};

use super::Labelled;
use crate::listed::Listed;
use crate::narrowing::rule::{TableRule, slot_number};
use kits::label::Label;
use kits::label_box::LabelBox;

// The label of these members.
fn label_of(bits: u16) -> Label
    requires { 0 < bits }
    ensures { result.bits ≡ bits }
{
    Label::new(bits).unwrap()
}

impl<'a> Labelled<'a> {
    // The rule with the labels that its slots have in the box.
    #[inline(always)]
    pub(crate) fn of(rule: TableRule<'a>, b: &LabelBox) -> Labelled<'a>
        ensures rule { result.rule ≡ rule.entry }
        ensures labels { listed result.labels ≡ at_slots rule.entry.cells.slots.now b.now.labels }
    {
        let mut labels = Listed::none();
        for slot in rule.cells.slots {
            labels.push(b.label(slot_number(u32::from(*slot))).bits());
        }
        Labelled { rule, labels }
    }

    // Puts these labels into the slots of the rule.
    #[inline(always)]
    pub(crate) fn put(&self, b: &mut LabelBox)
        ensures { b.new.labels ≡ put_at self.now.rule.cells.slots.now (listed self.now.labels) b.old.labels }
    {
        for (slot, bits) in self.rule.cells.slots.iter().zip(self.labels.as_slice()) {
            b.put(slot_number(u32::from(*slot)), label_of(*bits));
        }
    }
}
