ghost use Rattle.std.specs.Prelude.{◌≡◌, length, replicate, if◌then◌else◌, slice_index_or, slice_set, is_ok};
ghost use Rattle.kits.specs.declared.choices.Choice.TheVariants.{Free};
ghost use Rattle.kits.specs.Choices.{choice_lawful};

use super::{Choice, Choices, NoPart};
use crate::slot_number::SlotNumber;

impl Choice {
    // Is it no fixed number, or one that is a part?
    fn is_lawful(self) -> bool
        ensures { result ≡ choice_lawful self }
    {
        match self {
            Choice::Fixed(part) => (1..=15).contains(&part),
            Choice::Free | Choice::Barred => true,
        }
    }
}

impl Choices {
    // No choice on any slot.
    pub fn none() -> Choices
        ensures { result.list ≡ replicate 24 Free }
    {
        Choices {
            list: [Choice::Free; 24],
        }
    }

    // The choice on a slot.
    pub fn choice(&self, slot: SlotNumber) -> Choice
        ensures { result ≡ slice_index_or self.now.list slot.number Free }
    {
        self.list[slot.index()]
    }

    // The choices of the 24 slots.
    pub fn as_slice(&self) -> &[Choice]
        ensures value { result.now ≡ self.now.list }
        ensures long { length result.now ≡ 24 }
    {
        &self.list
    }

    // Puts a choice on a slot. A number that is no part cannot be fixed: that is refused, and changes nothing.
    #[tactic(auto, using(crate::proofs::ChoiceLaws::lawful_set))]
    pub fn choose(&mut self, slot: SlotNumber, choice: Choice) -> Result<(), NoPart>
        ensures value { is_ok result ≡ choice_lawful choice }
        ensures after { self.new.list ≡ (if choice_lawful choice then slice_set self.old.list slot.number choice else self.old.list) }
    {
        if !choice.is_lawful() {
            return Err(NoPart);
        }
        let at = slot.index();
        self.list[at] = choice;
        Ok(())
    }
}
