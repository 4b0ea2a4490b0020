ghost use Rattle.std.specs.Prelude.{◌≡◌, ◌<◌};
ghost use Rattle.rule_books.specs.Narrowing.{Ready, Beside};

use catalogue::cells::RuleCells;
use kits::slot_number::SlotNumber;

mod rows;

// A rule on one to four slots of the box, none twice, and beside another slot if its kind has one.
#[derive(Clone, Copy)]
pub(crate) struct TableRule<'a> {
    pub(crate) cells: RuleCells<'a>,
    ghost ready: { Ready cells.slots.now cells.count cells.rows.now },
    ghost beside: { Beside cells.kind cells.slots.now },
}

// The slot of a number.
pub(super) fn slot_number(number: u32) -> SlotNumber
    requires { number < 24 }
    ensures { result.number ≡ number }
{
    SlotNumber::new(number).unwrap()
}
