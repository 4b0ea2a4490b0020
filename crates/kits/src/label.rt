ghost use Rattle.std.specs.Prelude.{◌<◌};

mod calls;
mod members;

// A set of numbers, bit v standing for v, with at least one member.
#[derive(Clone, Copy, PartialEq, Eq, Hash, Debug)]
pub struct Label {
    pub(crate) bits: u16,
    ghost some: { 0 < bits },
}
