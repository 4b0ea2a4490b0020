// A used slot: it offers the parts 1 to `parts`, and a standard one is never empty.
#[derive(Clone, Copy, PartialEq, Eq, Debug)]
pub struct Slot {
    pub parts: u16,
    pub standard: bool,
}

impl Slot {
    ghost use Rattle.std.specs.Prelude.{◌≡◌};
    ghost use Rattle.catalogue.specs.Cells.{slot_of, slot_cell};

    // The slot of a cell. An Option, as its definition is: a TryFrom would need an error that nobody reads.
    pub(crate) fn of_cell(cell: u16) -> Option<Slot>
        ensures { result ≡ slot_of cell }
    {
        match cell {
            1..=15 => Some(Slot {
                parts: cell,
                standard: false,
            }),
            257..=271 => Some(Slot {
                parts: cell - 256,
                standard: true,
            }),
            _ => None,
        }
    }

    // Its cell: by a method beside its inverse, no longer than a From.
    pub(crate) fn cell(self) -> u32
        ensures { result ≡ slot_cell self }
    {
        let parts = u32::from(self.parts);
        if self.standard { parts + 256 } else { parts }
    }
}

// What a rule asks where each of its slots holds a part.
#[derive(Clone, Copy, PartialEq, Eq, Debug)]
pub enum Kind {
    // Their parts are one of the rows.
    Goes,
    // Where their parts are one of the rows, this slot is filled.
    Needs(u32),
    // Where their parts are one of the rows, this slot is empty.
    Bars(u32),
}

impl Kind {
    ghost use Rattle.std.specs.Prelude.{◌≡◌};
    ghost use Rattle.catalogue.specs.Cells.{kind_of, kind_cell, target_cell};

    // The kind of two cells: its number, and t. An Option, as its definition is: a TryFrom would need an error that nobody reads.
    pub(crate) fn of_cells(kind: u16, t: u16) -> Option<Kind>
        ensures { result ≡ kind_of kind t }
    {
        match (kind, t) {
            (0, 0) => Some(Kind::Goes),
            (1, t) => Some(Kind::Needs(u32::from(t))),
            (2, t) => Some(Kind::Bars(u32::from(t))),
            _ => None,
        }
    }

    // Its two cells: by name, which a From to a pair would not have.
    pub(crate) fn cells(self) -> (u32, u32)
        ensures { (result.0 ≡ kind_cell self) × (result.1 ≡ target_cell self) }
    {
        match self {
            Kind::Goes => (0, 0),
            Kind::Needs(t) => (1, t),
            Kind::Bars(t) => (2, t),
        }
    }
}
