ghost use Rattle.std.specs.Prelude.{◌≤◌};

use crate::model::Slot;

// The used slots of a catalogue, at most 24: an array and a count, for a value that lies in no heap and is copied, which the library's vector of fixed room is not.
#[derive(Clone, Copy)]
pub struct Slots {
    list: [Slot; 24],
    used: usize,
    ghost few: { used ≤ 24 },
}

impl Slots {
    ghost use Rattle.std.specs.Prelude.{◌≡◌, ◌<◌, [], ◌∷◌, ◌++◌, length};
    ghost use Rattle.catalogue.specs.Lawful.{any, offered};
    ghost use Rattle.catalogue.specs.Listed.{listed};

    // No slots.
    pub(crate) fn none() -> Slots
        ensures { listed result ≡ [] }
    {
        Slots {
            list: [Slot {
                parts: 0,
                standard: false,
            }; 24],
            used: 0,
        }
    }

    // One slot alone.
    pub fn only(slot: Slot) -> Slots
        ensures { listed result ≡ slot ∷ [] }
    {
        Slots {
            list: [slot; 24],
            used: 1,
        }
    }

    // One slot more.
    pub(crate) fn push(&mut self, slot: Slot)
        requires { length (listed self.old) < 24 }
        ensures { listed self.new ≡ listed self.old ++ slot ∷ [] }
    {
        let at = self.used;
        self.list[at] = slot;
        self.used = at + 1;
    }

    pub fn as_slice(&self) -> &[Slot]
        ensures value { result.now ≡ listed self.now }
        ensures few { length result.now ≤ 24 }
    {
        &self.list[..self.used]
    }

    // How many slots there are.
    pub fn used(&self) -> u32
        ensures value { result ≡ length (listed self.now) }
        ensures few { result ≤ 24 }
    {
        self.as_slice().len() as u32
    }

    // How many parts a slot offers: none where it is not used.
    #[tactic(auto, using(crate::proofs::Held::offers))]
    pub fn parts(&self, slot: u32) -> u32
        ensures { result ≡ offered (listed self.now) slot }
    {
        self.as_slice()
            .get(slot as usize)
            .map_or(0, |slot| u32::from(slot.parts))
    }

    // Is a slot standard?
    pub(crate) fn any_standard(&self) -> bool
        ensures { result ≡ any (λ s. s.standard) (listed self.now) }
    {
        self.as_slice().iter().any(|slot| slot.standard)
    }
}
