ghost use Rattle.std.specs.Prelude.{◌≡◌, true};
ghost use Rattle.catalogue.specs.Lawful.{slot_lawful};
ghost use Rattle.kits.specs.Choices.{choice_lawful};
ghost use Rattle.forms.specs.Opening.{offer_label, chosen_label, slot_label, opening_box, OpeningMeans};
ghost use Rattle.forms.specs.Said.{used_slots};

use super::Form;
use catalogue::model::Slot;
use kits::choices::{Choice, Choices};
use kits::label_box::LabelBox;

// The parts of a slot, with 0 where it is optional.
fn offer_label(slot: Slot) -> u16
    requires { slot_lawful slot ≡ true }
    ensures { result ≡ offer_label slot }
{
    let above = 2u32 << slot.parts;
    let lowest = if slot.standard { 2 } else { 1 };
    (above - lowest) as u16
}

// What a used slot may take under a choice.
fn chosen_label(slot: Slot, choice: Choice) -> u16
    requires { (slot_lawful slot ≡ true) × (choice_lawful choice ≡ true) }
    ensures { result ≡ chosen_label choice slot }
{
    match choice {
        Choice::Free => offer_label(slot),
        Choice::Fixed(part) => 1 << part,
        Choice::Barred => 1,
    }
}

impl Form {
    // What a slot may take under a choice: an unused one only 0.
    #[tactic(auto, using(crate::proofs::Places::slot_labels))]
    fn label(&self, slot: usize, choice: Choice) -> u16
        requires { choice_lawful choice ≡ true }
        ensures { result ≡ slot_label (used_slots self.now) slot choice }
    {
        self.slots
            .as_slice()
            .get(slot)
            .map_or(1, |slot| chosen_label(*slot, choice))
    }

    // The opening box under these choices: what each slot may take.
    pub fn opening(&self, choices: &Choices) -> LabelBox
        ensures value { result.labels ≡ opening_box (used_slots self.now) choices.now.list }
        ensures law { OpeningMeans }
    {
        let mut labels = [0u16; 24];
        // By the place, which a label depends on; of an array from a function of the place the proof did not close.
        for (i, choice) in choices.as_slice().iter().enumerate() {
            labels[i] = self.label(i, *choice);
        }
        LabelBox::new(labels).unwrap()
    }
}
