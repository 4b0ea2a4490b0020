ghost use Rattle.std.specs.Prelude.{◌≡◌};
ghost use Rattle.std.specs.Option.{option_map};
ghost use Rattle.kits.specs.Boxes.{single, open_slot, halves};
ghost use Rattle.kits.specs.Laws.{OpenSlot, SingleHoldsOne, SplitHalves};

use super::LabelBox;
use crate::slot_number::SlotNumber;

impl LabelBox {
    // Does the box hold one filling only?
    #[tactic(auto, using(crate::proofs::HalfLaws::single_law))]
    pub fn is_single(&self) -> bool
        ensures value { result ≡ single self.now.labels }
        ensures law { SingleHoldsOne }
    {
        self.labels.iter().all(|l| l.count_ones() == 1)
    }

    // The lowest slot with several members, unless the box is single.
    pub fn open_slot(&self) -> Option<SlotNumber>
        ensures value { option_map (λ s. s.number) result ≡ open_slot self.now.labels }
        ensures law { OpenSlot }
    {
        let place = self.labels.iter().position(|l| l.count_ones() != 1)?;
        SlotNumber::new(place as u32)
    }

    // The open slot cut in two, unless the box is single: its lowest member alone, and its other members.
    pub fn split(&self) -> Option<(LabelBox, LabelBox)>
        ensures value { option_map (λ p. (p.0.labels, p.1.labels)) result ≡ halves self.now.labels }
        ensures law { SplitHalves }
    {
        let slot = self.open_slot()?;
        let (low, others) = self.label(slot).split_lowest();
        let mut first = *self;
        first.put(slot, low);
        let mut second = *self;
        second.put(slot, others?);
        Some((first, second))
    }
}
