ghost use Rattle.std.specs.Prelude.{◌≡◌, ◌==◌};
ghost use Rattle.std.specs.List.{position};
ghost use Rattle.std.specs.Option.{option_map};
ghost use Rattle.fields.specs.Lines.{cut_line};

// Where the first line end is.
#[inline(always)]
fn line_end(text: &[u8]) -> Option<usize>
    ensures { result ≡ position (λ b. b == 10) text.now }
{
    text.iter().position(|b| *b == b'\n')
}

// The bytes before the first line end, and those after it.
#[tactic(auto, using(crate::proofs::LineViews::cut_position, std::proofs::lemmas::List::take_rest))]
#[inline(always)]
pub(crate) fn cut(text: &[u8]) -> Option<(&[u8], &[u8])>
    ensures { option_map (λ x. (x.0.now, x.1.now)) result ≡ cut_line text.now }
{
    let end = line_end(text)?;
    Some((&text[..end], &text[end + 1..]))
}
