ghost use Rattle.std.specs.Prelude.{◌≡◌, ◌<◌, length};
ghost use Rattle.catalogue.specs.Listed.{rule_in};
ghost use Rattle.kits.specs.Boxes.{holds};
ghost use Rattle.rule_books.specs.Narrowing.{supports};
ghost use Rattle.rule_books.specs.Rules.{is_row};

use super::TableRule;
use crate::narrowing::members::has;

// Is each number of the row in its label?
fn is_held(row: &[u16], labels: &[u16]) -> bool
    requires { length row.now ≡ length labels.now }
    ensures { result ≡ holds labels.now row.now }
{
    row.iter()
        .zip(labels)
        .all(|(number, label)| has(*label, *number))
}

impl TableRule<'_> {
    // Are the parts one of the rows?
    pub(crate) fn has_row(&self, parts: &[u16]) -> bool
        ensures { result ≡ is_row (rule_in self.now.cells).rows parts.now }
    {
        self.cells
            .rows
            .chunks_exact(self.cells.slots.len())
            .take(self.cells.count)
            .any(|row| row == parts)
    }

    // The label, with the numbers at a place of the rows that the labels hold.
    pub(crate) fn supports(&self, labels: &[u16], place: usize, start: u16) -> u16
        requires { (place < length labels.now) × (length labels.now ≡ length self.now.cells.slots.now) }
        ensures { result ≡ supports labels.now place start (rule_in self.now.cells).rows }
    {
        let rows = self.cells.rows.chunks_exact(self.cells.slots.len());
        let mut seen = start;
        for row in rows.take(self.cells.count) {
            // Each number of the label has a row, and a row that is held has no other.
            if seen == labels[place] {
                return seen;
            }
            if is_held(row, labels) {
                seen |= 1 << row[place];
            }
        }
        seen
    }
}
