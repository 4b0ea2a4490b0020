use crate::case::Case;
use cases::checksum::Checksum;
use cases::lent::is_touched;
use cases::shown::Shown;
use fields::fault::Fault;
use std::alloc::{AllocError, Global};
use std::fmt;

// What stands in every cell that is lent.
const UNTOUCHED: u16 = 0xa5a5;

// So many cells are printed, and of more a checksum.
const MOST_SHOWN: usize = 60;

// What came of reading a case's text.
#[derive(Drop)]
pub(crate) struct Verdict {
    read: Result<usize, Fault>,
    checked: Result<usize, Fault>,
    // The cells of the result.
    cells: Vec<u16>,
    // Whether a cell was changed that should not be.
    touched: bool,
}

impl Verdict {
    pub(crate) fn of(heap: Global, case: &Case<'_>) -> Result<Verdict, AllocError> {
        let mut lent = vec![in heap; UNTOUCHED; case.room]?;
        let read = catalogue::read(case.text.as_slice(), lent.as_mut_slice());
        let count = read.unwrap_or(0);
        let touched = is_touched(lent.as_slice(), count, &UNTOUCHED);
        lent.truncate(count);
        let checked = catalogue::check(case.text.as_slice());
        Ok(Verdict {
            read,
            checked,
            cells: lent,
            touched,
        })
    }
}

fn show_answer<W: fmt::Write>(
    answer: Result<usize, Fault>,
    f: &mut fmt::Formatter<W>,
) -> fmt::Result {
    match answer {
        Ok(count) => write!(f, "cells={count}"),
        Err(fault) => {
            let fault = Shown(fault);
            write!(f, "{fault}")
        }
    }
}

// Over the low and the high byte of each cell.
fn checksum(cells: &[u16]) -> Checksum {
    cells
        .iter()
        .fold(Checksum::new(), |sum, cell| sum.with(&cell.to_le_bytes()))
}

fn show_cells<W: fmt::Write>(cells: &[u16], f: &mut fmt::Formatter<W>) -> fmt::Result {
    if cells.len() > MOST_SHOWN {
        let sum = checksum(cells).value();
        return write!(f, " fnv={sum:016x}");
    }
    for cell in cells {
        write!(f, " {cell}")?;
    }
    Ok(())
}

impl fmt::Display for Verdict {
    fn fmt<W: fmt::Write>(&self, f: &mut fmt::Formatter<W>) -> fmt::Result {
        show_answer(self.read, f)?;
        show_cells(self.cells.as_slice(), f)?;
        if self.touched {
            write!(f, " touched")?;
        }
        if self.read == self.checked {
            return write!(f, " check=same");
        }
        write!(f, " check: ")?;
        show_answer(self.checked, f)
    }
}
