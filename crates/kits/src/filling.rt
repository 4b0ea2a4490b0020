ghost use Rattle.kits.specs.Fillings.{Numbers};

mod order;

// A number for each slot: 0 for empty, or a part, 1 to 15.
#[derive(Clone, Copy, PartialEq, Eq, PartialOrd, Ord, Hash, Debug)]
pub struct Filling {
    pub(crate) numbers: [u8; 24],
    ghost parts: { Numbers numbers },
}
