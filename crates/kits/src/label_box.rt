ghost use Rattle.kits.specs.Boxes.{Boxed};

mod fillings;
mod halves;
mod slots;

// A label for each slot: every filling whose numbers are all in their labels.
#[derive(Clone, Copy, PartialEq, Eq, Hash, Debug)]
pub struct LabelBox {
    labels: [u16; 24],
    ghost boxed: { Boxed labels },
}
