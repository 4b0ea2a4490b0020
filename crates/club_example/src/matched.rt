use kits::slot_number::SlotNumber;

mod rules;

// A club's own book of one rule: two slots carry parts of the same number, or both are empty.
#[derive(Clone, Copy, PartialEq, Eq, Hash, Debug)]
pub struct Matched {
    one: SlotNumber,
    other: SlotNumber,
}
