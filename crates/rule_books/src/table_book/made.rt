ghost use Rattle.std.specs.Prelude.{◌≡◌, ◌≤◌, [], length, MatchOption};
ghost use Rattle.std.specs.Option.{option_map};
ghost use Rattle.catalogue.specs.Cells.{rules_of};
ghost use Rattle.catalogue.specs.Listed.{listed as slots_listed};
ghost use Rattle.rule_books.specs.Books.{book_rules};
ghost use Rattle.rule_books.specs.Exact.{ExactMeans};
ghost use Rattle.rule_books.specs.Index.{Last, PlacesFound};
ghost use Rattle.rule_books.specs.Listed.{listed};
ghost use Rattle.rule_books.specs.Meaning.{KitsAreSolutions};
ghost use Rattle.rule_books.specs.Tables.{table_rules};

use super::TableBook;
use crate::listed::Listed;
use catalogue::cells::{slots_of_cells, take_catalogue, take_rule};
use catalogue::slots::Slots;

// Where each of so many lawful rules begins, which are the last of the cells.
fn find_places(cells: &[u16], rules: &[u16], count: u16, slots: &Slots) -> Option<Listed<64>>
    requires few { count ≤ 64 }
    requires within { length cells.now ≤ 8192 }
    requires last { Last rules.now cells.now }
    ensures { PlacesFound cells.now (rules_of count (slots_listed slots.now) rules.now) (option_map listed result) }
{
    let mut places = Listed::none();
    let mut left = rules;
    for _ in 0..count {
        places.push((cells.len() - left.len()) as u16);
        let (_, after) = take_rule(left, slots)?;
        left = after;
    }
    left.is_empty().then_some(places)
}

impl TableBook {
    // The book of no rules.
    fn none() -> TableBook
        ensures { book_rules result ≡ [] }
    {
        TableBook {
            cells: Listed::none(),
            places: Listed::none(),
        }
    }

    // The book of lawful cells.
    fn of_lawful(cells: &[u16]) -> Option<TableBook>
        ensures { MatchOption result (table_rules cells.now ≡ []) (λ b. book_rules b ≡ table_rules cells.now) }
    {
        let catalogue = take_catalogue(cells)?;
        let slots = slots_of_cells(catalogue.slots)?;
        let places = find_places(cells, catalogue.rules, catalogue.count, &slots)?;
        Some(TableBook {
            cells: Listed::of(cells),
            places,
        })
    }

    // The book of the rules that cells say: over unlawful cells it has none.
    pub fn new(cells: &[u16]) -> TableBook
        ensures rules { book_rules result ≡ table_rules cells.now }
        ensures narrowing { ExactMeans }
        ensures meaning { KitsAreSolutions }
    {
        TableBook::of_lawful(cells).unwrap_or_else(TableBook::none)
    }
}
