ghost use Rattle.std.specs.Prelude.{◌≡◌, if◌then◌else◌, replicate, Some, None, slice_index, slice_set};
ghost use Rattle.std.specs.Option.{option_map};
ghost use Rattle.kits.specs.Boxes.{all_some};

use super::LabelBox;
use crate::label::Label;
use crate::slot_number::SlotNumber;

impl Default for LabelBox {
    // The box with every slot empty: each label has 0 alone.
    ghost is_default = { λ b. b.labels ≡ replicate 24 1 };

    fn default() -> LabelBox {
        LabelBox { labels: [1; 24] }
    }
}

impl LabelBox {
    // The box with that label in each slot.
    pub fn whole(label: Label) -> LabelBox
        ensures { result.labels ≡ replicate 24 label.bits }
    {
        LabelBox {
            labels: [label.bits(); 24],
        }
    }

    // The box of these labels, if each has a member.
    pub fn new(labels: [u16; 24]) -> Option<LabelBox>
        ensures { option_map (λ b. b.labels) result ≡ (if all_some labels then Some labels else None) }
    {
        if labels.iter().all(|l| *l != 0) {
            Some(LabelBox { labels })
        } else {
            None
        }
    }

    pub fn label(&self, slot: SlotNumber) -> Label
        ensures { result.bits ≡ slice_index self.now.labels slot.number }
    {
        Label {
            bits: self.labels[slot.index()],
        }
    }

    #[tactic(auto, using(crate::proofs::BoxLaws::boxed_set))]
    pub fn put(&mut self, slot: SlotNumber, label: Label)
        ensures { self.new.labels ≡ slice_set self.old.labels slot.number label.bits }
    {
        self.labels[slot.index()] = label.bits();
    }
}
