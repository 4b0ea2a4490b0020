ghost use Rattle.std.specs.Prelude.{◌≡◌, ℕ, Bool, List, Option, is_some};
ghost use Rattle.std.specs.Option.{option_map, unwrap_or};
ghost use Rattle.kits.specs.Books.{Laws};

use crate::label_box::LabelBox;

// A rule book: how many rules it has, which fillings each rule allows, and what narrowing by each rule makes of each box.
pub trait Book {
    ghost rules: { Self → ℕ };

    ghost allows: { Self → ℕ → List ℕ → Bool };

    // The narrowed box, or none where narrowing fails: by the rule and the box only.
    ghost narrowed: { Self → ℕ → List ℕ → Option (List ℕ) };

    // How many rules there are.
    fn count(&self) -> u8
        ensures { result ≡ rules self.now };

    // The box narrowed by a rule, or none where that fails.
    fn narrow(&self, rule: u8, b: &LabelBox) -> Option<LabelBox>
        ensures { option_map (λ c. c.labels) result ≡ narrowed self.now rule b.now.labels };

    // Narrows the box where it stands, and leaves it where that fails. A book may do so without a copy.
    fn narrow_within(&self, rule: u8, b: &mut LabelBox) -> Option<()>
        ensures fits { is_some result ≡ is_some (narrowed self.now rule b.old.labels) }
        ensures after { b.new.labels ≡ unwrap_or (narrowed self.now rule b.old.labels) b.old.labels }
    {
        *b = self.narrow(rule, b)?;
        Some(())
    }

    ghost points: { (b : Self) → Laws (rules b) (allows b) (narrowed b) };
}
