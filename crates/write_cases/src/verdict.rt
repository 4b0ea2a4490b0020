use crate::case::Case;
use crate::escape::Escaped;
use cases::checksum::Checksum;
use cases::lent::is_touched;
use cases::shown::Shown;
use fields::fault::Fault;
use std::alloc::{AllocError, Global};
use std::fmt;

// What stands in every byte that is lent: no text has it.
const UNTOUCHED: u8 = 0xa5;

// A text of so many bytes is printed, and of a longer one its checksum alone.
const MOST_SHOWN: usize = 240;

// What came of writing a case's cells.
#[derive(Drop)]
pub(crate) struct Verdict {
    lawful: bool,
    written: Result<usize, Fault>,
    // The text of the result.
    text: Vec<u8>,
    // Whether a byte was changed that should not be.
    touched: bool,
}

impl Verdict {
    pub(crate) fn of(heap: Global, case: &Case<'_>) -> Result<Verdict, AllocError> {
        let mut lent = vec![in heap; UNTOUCHED; case.room]?;
        let written = catalogue::write(case.cells.as_slice(), lent.as_mut_slice());
        let count = written.unwrap_or(0);
        let touched = is_touched(lent.as_slice(), count, &UNTOUCHED);
        lent.truncate(count);
        let lawful = catalogue::is_lawful(case.cells.as_slice());
        Ok(Verdict {
            lawful,
            written,
            text: lent,
            touched,
        })
    }
}

fn show_text<W: fmt::Write>(text: &[u8], f: &mut fmt::Formatter<W>) -> fmt::Result {
    let sum = Checksum::new().with(text).value();
    write!(f, " fnv={sum:016x}")?;
    if text.len() <= MOST_SHOWN {
        let shown = Escaped(text);
        write!(f, " {shown}")?;
    }
    Ok(())
}

impl fmt::Display for Verdict {
    fn fmt<W: fmt::Write>(&self, f: &mut fmt::Formatter<W>) -> fmt::Result {
        let lawful = if self.lawful { "yes" } else { "no" };
        write!(f, "lawful={lawful}")?;
        match self.written {
            Ok(count) => {
                write!(f, " bytes={count}")?;
                show_text(self.text.as_slice(), f)?;
            }
            Err(fault) => {
                let fault = Shown(fault);
                write!(f, " {fault}")?;
            }
        }
        if self.touched {
            write!(f, " touched")?;
        }
        Ok(())
    }
}
