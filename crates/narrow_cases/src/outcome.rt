use kits::book::Book;
use kits::label_box::LabelBox;
use kits::slot_number::SlotNumber;
use rule_books::table_book::TableBook;
use std::fmt;

// What came of narrowing a box.
#[derive(Clone, Copy)]
pub(crate) struct Outcome {
    before: LabelBox,
    narrowed: Option<LabelBox>,
}

impl Outcome {
    pub(crate) fn of(book: &TableBook, rule: u8, before: LabelBox) -> Outcome {
        let narrowed = book.narrow(rule, &before);
        Outcome { before, narrowed }
    }
}

// The answer, and each slot whose label changed with its new label, or that the box is the same.
impl fmt::Display for Outcome {
    fn fmt<W: fmt::Write>(&self, f: &mut fmt::Formatter<W>) -> fmt::Result {
        let answer = if self.narrowed.is_some() {
            "fits"
        } else {
            "fails"
        };
        write!(f, "{answer}")?;
        let after = self.narrowed.unwrap_or(self.before);
        for slot in (0..24).filter_map(SlotNumber::new) {
            let label = after.label(slot);
            if label != self.before.label(slot) {
                let number = slot.index();
                let bits = label.bits();
                write!(f, " {number}={bits}")?;
            }
        }
        if after == self.before {
            write!(f, " same")?;
        }
        Ok(())
    }
}
