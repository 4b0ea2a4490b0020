ghost use Rattle.std.specs.Prelude.{◌≡◌, ◌+◌, ◌^◌, ◌<◌, ◌≤◌, [], length, slice_set, nat_lt};
ghost use Rattle.catalogue.specs.Listed.{rule_in};
ghost use Rattle.kits.specs.Boxes.{volume};
ghost use Rattle.rule_books.specs.Listed.{listed};
ghost use Rattle.rule_books.specs.Narrowing.{some_no_row};

use super::labelled::Labelled;
use super::members::has;
use super::rule::TableRule;
use crate::listed::Listed;

// Is some choice from the labels, after the numbers chosen, no row?
fn no_row_after(rule: &TableRule, chosen: &Listed<4>, labels: &[u16]) -> bool
    requires { length (listed chosen.now) + length labels.now ≤ 4 }
    ensures { result ≡ some_no_row (rule_in rule.now.cells).rows (listed chosen.now) labels.now }
{
    let [label, others @ ..] = labels else {
        return !rule.has_row(chosen.as_slice());
    };
    let place = chosen.len();
    let mut next = *chosen;
    next.push(0);
    // By a loop, since `any` would hold the recursion in a closure.
    for v in 0..16u16 {
        if has(*label, v) {
            next.set(place, v);
            if no_row_after(rule, &next, others) {
                return true;
            }
        }
    }
    false
}

impl Labelled<'_> {
    // Have the labels more choices than the rule has rows?
    fn more_choices(&self) -> bool
        ensures { result ≡ nat_lt self.now.rule.cells.count (volume (listed self.now.labels)) }
    {
        let choices: usize = self
            .labels
            .as_slice()
            .iter()
            .map(|label| label.count_ones() as usize)
            .product();
        choices > self.rule.cells.count
    }

    // Is some choice from the labels no row?
    pub(crate) fn some_no_row(&self) -> bool
        ensures { result ≡ some_no_row (rule_in self.now.rule.cells).rows [] (listed self.now.labels) }
    {
        self.more_choices() || no_row_after(&self.rule, &Listed::none(), self.labels.as_slice())
    }

    // Is some choice no row, once a number stands alone in the label at a place? It stays so: a copy for each number would be slower.
    pub(crate) fn spares_alone(&mut self, place: usize, number: u16) -> bool
        requires { (place < length (listed self.old.labels)) × (number < 16) }
        ensures value { result ≡ some_no_row (rule_in self.old.rule.cells).rows [] (slice_set (listed self.old.labels) place (2 ^ number)) }
        ensures rule { self.new.rule ≡ self.old.rule }
        ensures labels { listed self.new.labels ≡ slice_set (listed self.old.labels) place (2 ^ number) }
    {
        self.labels.set(place, 1 << number);
        self.some_no_row()
    }
}
