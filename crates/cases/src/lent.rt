ghost use Rattle.std.specs.Prelude.{◌≡◌, not, drop};
ghost use Rattle.std.specs.List.{list_any};

// Was an item past the first ones changed from what stood in all of them?
pub fn is_touched<T: PartialEq>(items: &[T], first: usize, untouched: &T) -> bool
    ensures { result ≡ list_any (λ x. not (T.eq x untouched.now)) (drop first items.now) }
{
    items.iter().skip(first).any(|item| item != untouched)
}
