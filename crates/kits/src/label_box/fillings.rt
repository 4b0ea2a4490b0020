ghost use Rattle.std.specs.Prelude.{◌≡◌};
ghost use Rattle.kits.specs.Boxes.{holds, volume, lowest_filling};
ghost use Rattle.kits.specs.Laws.{Held, LowestFilling, VolumeCounts};

use super::LabelBox;
use crate::filling::Filling;
use crate::members::has_member;

impl LabelBox {
    // The lowest member of each label: the one filling of a single box.
    pub fn filling(&self) -> Filling
        ensures value { result.numbers ≡ lowest_filling self.now.labels }
        ensures law { LowestFilling }
    {
        Filling {
            numbers: self.labels.map(|l| l.trailing_zeros() as u8),
        }
    }

    // Is each number in its label?
    #[tactic(auto, using(crate::proofs::HalfLaws::held))]
    pub fn holds(&self, filling: &Filling) -> bool
        ensures value { result ≡ holds self.now.labels filling.now.numbers }
        ensures law { Held }
    {
        self.labels
            .iter()
            .zip(&filling.numbers)
            .all(|(l, v)| has_member(u64::from(*l), u32::from(*v)))
    }

    // The number of fillings.
    pub fn volume(&self) -> u128
        ensures value { result ≡ volume self.now.labels }
        ensures law { VolumeCounts }
    {
        self.labels
            .iter()
            .map(|l| u128::from(l.count_ones()))
            .product()
    }
}
