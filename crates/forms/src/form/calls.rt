ghost use Rattle.std.specs.Prelude.{◌≡◌, true, [], ◌∷◌, length};
ghost use Rattle.catalogue.specs.Lawful.{offered};
ghost use Rattle.forms.specs.Forms.{standard_at};
ghost use Rattle.forms.specs.Said.{used_slots};

use super::Form;
use catalogue::model::Slot;
use catalogue::slots::Slots;

impl Form {
    // A fresh form: one standard slot with one part.
    pub fn fresh() -> Form
        ensures { used_slots result ≡ record { parts = 1; standard = true } ∷ [] }
    {
        let slots = Slots::only(Slot {
            parts: 1,
            standard: true,
        });
        Form { slots }
    }

    // How many slots are used.
    pub fn used(&self) -> u32
        ensures { result ≡ length (used_slots self.now) }
    {
        self.slots.used()
    }

    // How many parts a slot offers: none where it is not used.
    pub fn parts(&self, slot: u32) -> u32
        ensures { result ≡ offered (used_slots self.now) slot }
    {
        self.slots.parts(slot)
    }

    // Is the slot used, and never empty?
    #[tactic(auto, using(crate::proofs::Places::is_standard))]
    pub fn is_standard(&self, slot: u32) -> bool
        ensures { result ≡ standard_at (used_slots self.now) slot }
    {
        self.slots
            .as_slice()
            .get(slot as usize)
            .is_some_and(|slot| slot.standard)
    }
}
