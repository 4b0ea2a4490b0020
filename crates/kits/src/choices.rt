ghost use Rattle.std.specs.Prelude.{◌≡◌, true};
ghost use Rattle.kits.specs.Choices.{choices_lawful};

mod calls;
mod no_part;

// What a club asks of one slot.
#[derive(Clone, Copy, PartialEq, Eq, Hash, Debug)]
pub enum Choice {
    // Nothing.
    Free,
    // That it holds this part.
    Fixed(u8),
    // That it stays empty.
    Barred,
}

// A choice for each slot; a fixed one names a part, 1 to 15.
#[derive(Clone, Copy, PartialEq, Eq, Hash, Debug)]
pub struct Choices {
    list: [Choice; 24],
    ghost lawful: { choices_lawful list ≡ true },
}

// The refusal of a fixed number that is no part.
#[derive(Clone, Copy, PartialEq, Eq, Debug)]
pub struct NoPart;
