use anyhow::{Context, bail};
use cases::numbers::parse_numbers;
use kits::label_box::LabelBox;
use std::alloc::Global;

#[derive(Drop)]
pub(crate) enum Case<'a> {
    // The book of these cells is taken.
    Book {
        name: &'a str,
        cells: Vec<u16>,
    },
    // A box is narrowed by a rule of the book.
    Narrowing {
        name: &'a str,
        rule: u8,
        labels: LabelBox,
    },
}

impl<'a> Case<'a> {
    // A line is `NAME book CELLS` or `NAME box RULE LABELS`.
    pub(crate) fn parse(heap: Global, line: &'a str) -> anyhow::Result<Case<'a>> {
        let (name, rest) = cut(line)?;
        let (word, rest) = cut(rest)?;
        match word {
            "book" => Ok(Case::Book {
                name,
                cells: parse_numbers(heap, rest)?,
            }),
            "box" => {
                let (rule, labels) = cut(rest)?;
                Ok(Case::Narrowing {
                    name,
                    rule: rule.parse::<u8>()?,
                    labels: parse_box(heap, labels)?,
                })
            }
            _ => bail!("a line has neither a book nor a box"),
        }
    }
}

// What stands before the first space, and after it.
fn cut(text: &str) -> anyhow::Result<(&str, &str)> {
    text.split_once(' ').context("a line is cut short")
}

fn parse_box(heap: Global, text: &str) -> anyhow::Result<LabelBox> {
    let labels = <[u16; 24]>::try_from(parse_numbers(heap, text)?)
        .ok()
        .context("a box has not 24 labels")?;
    LabelBox::new(labels).context("a label has no member")
}
