ghost use Rattle.rule_books.specs.Index.{Placed};
ghost use Rattle.rule_books.specs.Listed.{listed};
ghost use Rattle.rule_books.specs.Tables.{table_rules};

use crate::listed::Listed;

mod made;
mod rules;

// The rules of a catalogue, by their cells, and where each rule begins: a rule is read at once, and not after those before it.
#[derive(Clone, Copy)]
pub struct TableBook {
    cells: Listed<8192>,
    places: Listed<64>,
    ghost placed: { Placed (listed cells) (listed places) (table_rules (listed cells)) },
}
