ghost use Rattle.std.specs.Prelude.{◌<◌};

mod calls;

// The number of a slot, 0 to 23.
#[derive(Clone, Copy, PartialEq, Eq, PartialOrd, Ord, Hash, Debug)]
pub struct SlotNumber {
    number: u8,
    ghost within: { number < 24 },
}
