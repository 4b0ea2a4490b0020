ghost use Rattle.std.specs.Prelude.{◌≡◌, ◌≤◌, length, IfSome};
ghost use Rattle.std.specs.Option.{option_map};
ghost use Rattle.fields.specs.Named.{of_source, line_place, part, named_bytes, named_place};
ghost use Rattle.fields.specs.TextLines.{lines, first_line, LinesInTurn, line_at};
ghost use Rattle.fields.specs.Values.{line_of};

use crate::cutting::cut;
use crate::fault::{Fault, Source};

// A line of a text without its end, and whether it has one.
#[derive(Clone, Copy)]
pub struct TextLine<'a> {
    pub bytes: &'a [u8],
    pub ended: bool,
}

// The first line of the text, if it has any bytes, and what follows it.
#[tactic(auto, using(crate::proofs::LineLists::lines_in_turn))]
pub fn first_line(text: &[u8]) -> Option<(TextLine<'_>, &[u8])>
    ensures value { option_map (λ x. (line_of x.0, x.1.now)) result ≡ first_line text.now }
    ensures law { LinesInTurn }
{
    if text.is_empty() {
        return None;
    }
    Some(match cut(text) {
        Some((bytes, rest)) => (TextLine { bytes, ended: true }, rest),
        None => (
            TextLine {
                bytes: text,
                ended: false,
            },
            &[],
        ),
    })
}

// From where to where a line of the text lies, without its end.
#[tactic(auto, using(crate::proofs::LineLists::line_at_zero))]
fn line_place(text: &[u8], line: u32) -> Option<(usize, usize)>
    ensures within { IfSome result (λ p. (p.0 ≤ p.1) × (p.1 ≤ length text.now)) }
    ensures place { result ≡ line_place line text.now }
    ensures bytes { option_map (part text.now) result ≡ option_map (λ l. l.bytes) (line_at line (lines text.now)) }
{
    if line == 0 {
        return None;
    }
    // By places in the text, since the line is promised to lie in it.
    let mut from = 0usize;
    for _ in 1..line {
        let (bytes, _) = cut(&text[from..])?;
        from += bytes.len() + 1;
    }
    let (first, _) = first_line(&text[from..])?;
    Some((from, from + first.bytes.len()))
}

// The text that a fault of this source is about.
fn text_of<'a>(source: Source, catalogue: &'a [u8], orders: &'a [u8]) -> &'a [u8]
    ensures place { result.ref_ptr ≡ of_source source catalogue.entry.ref_ptr orders.entry.ref_ptr }
    ensures bytes { result.now ≡ of_source source catalogue.now orders.now }
{
    match source {
        Source::Catalogue => catalogue,
        Source::Orders => orders,
    }
}

// The bytes of the line that a fault names, out of the text that the fault is about.
pub fn named_line<'a>(fault: Fault, catalogue: &'a [u8], orders: &'a [u8]) -> Option<&'a [u8]>
    ensures place { option_map (λ x. x.ref_ptr) result ≡ named_place fault catalogue.entry orders.entry }
    ensures bytes { option_map (λ x. x.now) result ≡ named_bytes fault catalogue.now orders.now }
{
    let text = text_of(fault.kind.source()?, catalogue, orders);
    let (from, to) = line_place(text, fault.line)?;
    Some(&text[from..to])
}
