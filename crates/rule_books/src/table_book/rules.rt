ghost use Rattle.std.specs.Prelude.{◌≡◌, ◌<◌, length, slice_index_or};
ghost use Rattle.catalogue.specs.Listed.{rule_in};
ghost use Rattle.rule_books.specs.Books.{book_rules};
ghost use Rattle.rule_books.specs.BookLaws.{table_laws};
ghost use Rattle.rule_books.specs.Index.{no_rule};
ghost use Rattle.rule_books.specs.Listed.{listed};
ghost use Rattle.rule_books.specs.TableLaws.{rules_lawful};
ghost use Rattle.rule_books.specs.Tables.{table_allows, table_narrowed};

use super::TableBook;
use crate::narrowing::{TableRule, narrow_rule};
use catalogue::cells::begin_rule;
use kits::book::Book;
use kits::label_box::LabelBox;

impl TableBook {
    // The rule of a number, read at its place.
    #[inline(always)]
    fn rule(&self, number: u8) -> TableRule<'_>
        requires { number < length (listed self.now.places) }
        ensures { rule_in result.cells ≡ slice_index_or (book_rules self.now) number no_rule }
    {
        let place = usize::from(self.places.as_slice()[usize::from(number)]);
        let (cells, _) = begin_rule(&self.cells.as_slice()[place..]).unwrap();
        TableRule { cells }
    }
}

impl Book for TableBook {
    ghost rules = { λ b. length (book_rules b) };

    ghost allows = { λ b. table_allows (book_rules b) };

    ghost narrowed = { λ b. table_narrowed (book_rules b) };

    ghost points = { λ b. table_laws _ (rules_lawful (listed b.cells)).few };

    fn count(&self) -> u8 {
        self.places.len() as u8
    }

    fn narrow(&self, rule: u8, b: &LabelBox) -> Option<LabelBox> {
        let mut narrowed = *b;
        self.narrow_within(rule, &mut narrowed)?;
        Some(narrowed)
    }

    #[inline(always)]
    fn narrow_within(&self, rule: u8, b: &mut LabelBox) -> Option<()> {
        if rule < self.count() {
            narrow_rule(self.rule(rule), b)
        } else {
            Some(())
        }
    }
}
