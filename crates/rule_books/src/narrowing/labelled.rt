ghost use Rattle.std.specs.Prelude.{◌≡◌, length};
ghost use Rattle.kits.specs.Boxes.{Full, Small};
ghost use Rattle.rule_books.specs.Listed.{listed};

use super::rule::TableRule;
use crate::listed::Listed;

mod boxes;
mod empty;

// A rule with a label for each of its slots, none without a member.
#[derive(Clone, Copy)]
pub(crate) struct Labelled<'a> {
    pub(super) rule: TableRule<'a>,
    pub(super) labels: Listed<4>,
    ghost each: { length (listed labels) ≡ length rule.cells.slots.now },
    ghost full: { Full (listed labels) },
    ghost small: { Small (listed labels) },
}
