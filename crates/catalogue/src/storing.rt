ghost use Rattle.std.specs.Prelude.{◌≡◌, map};
ghost use Rattle.fields.specs.Values.{values_of};
ghost use Rattle.catalogue.specs.Cells.{slot_cell};
ghost use Rattle.catalogue.specs.Listed.{listed};
ghost use Rattle.catalogue.specs.Keeping.{nothing_kept, kept};
ghost use Rattle.catalogue.specs.Storing.{rule_head, catalogue_head};

use crate::model::Kind;
use crate::room::Room;
use crate::slots::Slots;
use fields::numbers::Numbers;

// The cells of a text: the first N of them, and how many they are.
#[derive(Drop)]
pub(crate) struct Kept<const N: usize> {
    cells: Room<u32, N>,
    count: usize,
}

impl<const N: usize> Kept<N> {
    // No cells.
    pub(crate) fn new() -> Self
        ensures { result ≡ nothing_kept }
    {
        Kept {
            cells: Room::new(0),
            count: 0,
        }
    }

    // More cells.
    pub(crate) fn extend(&mut self, cells: &[u32])
        ensures { self.new ≡ kept self.old cells.now }
    {
        self.cells.keep(cells);
        self.count = self.count.saturating_add(cells.len());
    }

    // How many cells there are.
    pub(crate) fn count(&self) -> usize
        ensures { result ≡ self.now.count }
    {
        self.count
    }

    // The first cells.
    pub(crate) fn as_slice(&self) -> &[u32]
        ensures { result.now ≡ self.now.cells.items }
    {
        self.cells.as_slice()
    }
}

// The cells of slots.
fn keep_slots<const N: usize>(out: &mut Kept<N>, slots: &Slots)
    ensures { out.new ≡ kept out.old (map slot_cell (listed slots.now)) }
{
    for slot in slots.as_slice() {
        out.extend(&[slot.cell()]);
    }
}

// A rule's cells before its rows.
#[tactic(auto, using(crate::proofs::Keeping::keeps))]
pub(crate) fn keep_rule_head<const N: usize>(
    out: &mut Kept<N>,
    kind: Kind,
    slots: &Numbers,
    rows: u32,
)
    ensures { out.new ≡ kept out.old (rule_head kind (values_of slots.now) rows) }
{
    let (code, t) = kind.cells();
    let slots = slots.as_slice();
    out.extend(&[code, t, slots.len() as u32]);
    out.extend(slots);
    out.extend(&[rows]);
}

// A catalogue's cells before its rules.
#[tactic(auto, using(crate::proofs::Keeping::keeps))]
pub(crate) fn keep_catalogue_head<const N: usize>(
    out: &mut Kept<N>,
    mark: u32,
    slots: &Slots,
    rules: u32,
)
    ensures { out.new ≡ kept out.old (catalogue_head mark (listed slots.now) rules) }
{
    out.extend(&[mark, slots.used()]);
    keep_slots(out, slots);
    out.extend(&[rules]);
}
