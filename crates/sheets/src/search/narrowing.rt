ghost use Rattle.std.specs.Prelude.{◌≡◌};
ghost use Rattle.std.specs.Option.{option_map};
ghost use Rattle.sheets.specs.Sets.{members};
ghost use Rattle.sheets.specs.Steps.{narrowed_by_all};

use crate::rule_set::RuleSet;
use kits::book::Book;
use kits::label_box::LabelBox;

// The box narrowed by each rule of the set in rising number, or none where one fails.
pub(crate) fn narrow_by_all<B: Book>(book: &B, rules: RuleSet, b: LabelBox) -> Option<LabelBox>
    ensures { option_map (λ c. c.labels) result ≡ narrowed_by_all (B.narrowed book.now) (members rules.bits) b.labels }
{
    let mut narrowed = b;
    let mut left = rules;
    while let Some(rule) = left.pop_lowest() {
        book.narrow_within(rule, &mut narrowed)?;
    }
    Some(narrowed)
}
