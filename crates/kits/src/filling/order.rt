ghost use Rattle.std.specs.Prelude.{◌≡◌, slice_index};
ghost use Rattle.kits.specs.Fillings.{before};
ghost use Rattle.kits.specs.Laws.{Order};

use super::Filling;
use crate::slot_number::SlotNumber;

impl Filling {
    // The number that the slot has.
    pub fn number(&self, slot: SlotNumber) -> u8
        ensures { result ≡ slice_index self.now.numbers slot.number }
    {
        self.numbers[slot.index()]
    }

    // Has this filling the lower number in the first slot where they differ?
    #[tactic(auto, using(crate::proofs::OrderLaws::before_lt, crate::proofs::OrderLaws::order))]
    pub fn precedes(&self, other: &Filling) -> bool
        ensures value { result ≡ before self.now.numbers other.now.numbers }
        ensures law { Order }
    {
        self < other
    }
}
