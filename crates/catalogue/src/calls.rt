ghost use Rattle.std.specs.Prelude.{◌≡◌, ◌^◌, ◌<◌, ◌≤◌, [], ◌++◌, length, drop, Ok, IfOk};
ghost use Rattle.std.specs.List.{AllByRecursion};
ghost use Rattle.fields.specs.Results.{mapped_ok};
ghost use Rattle.catalogue.specs.Keeping.{nothing_kept};
ghost use Rattle.catalogue.specs.Law.{ReadsWhatIsWritten};
ghost use Rattle.catalogue.specs.Outcomes.{read_into, write_into, laid};

use crate::reading::read_text;
use crate::storing::Kept;
use crate::writing::{Text, put_catalogue};
use fields::fault::{Fault, FaultKind};

// The most cells that a catalogue may have.
const MOST_CELLS: usize = 8192;

// Numbers of 16 bits laid over the front of the cells.
fn lay(cells: &mut [u16], numbers: &[u32])
    requires { (length numbers.now ≤ length cells.old) × (AllByRecursion (λ n. n < 2 ^ 16) numbers.now) }
    ensures { cells.new ≡ numbers.now ++ drop (length numbers.now) cells.old }
{
    // By index, since the values that a loan of `iter_mut` leaves are not known.
    for (i, n) in numbers.iter().enumerate() {
        cells[i] = *n as u16;
    }
}

// A text's cells, at most 8,192 and as many as there is room for; answers how many they are.
fn read_within<const N: usize>(text: &[u8], room: usize, out: &mut Kept<N>) -> Result<usize, Fault>
    requires { out.old ≡ nothing_kept }
    ensures few { IfOk result (λ n. n ≤ 8192) }
    ensures value { result ≡ mapped_ok length (read_into room text.now) }
    ensures cells { IfOk result (λ n. n ≤ N → Ok out.new.cells.items ≡ read_into room text.now) }
{
    read_text(text, out)?;
    let count = out.count();
    if count > room.min(MOST_CELLS) {
        return Err(FaultKind::TooManyCells.at(0));
    }
    Ok(count)
}

// Reads a catalogue's text to its cells, and answers how many they are.
// A refusal leaves the cells as they were, and past the result none is written.
#[tactic(auto, using(crate::proofs::TheLaw::reads_what_is_written))]
pub fn read(text: &[u8], cells: &mut [u16]) -> Result<usize, Fault>
    ensures fits { IfOk result (λ n. n ≤ length cells.old) }
    ensures value { result ≡ mapped_ok length (read_into (length cells.old) text.now) }
    ensures after { cells.new ≡ laid (read_into (length cells.old) text.now) cells.old }
    ensures law { ReadsWhatIsWritten }
{
    let mut found = Kept::<MOST_CELLS>::new();
    let count = read_within(text, cells.len(), &mut found)?;
    lay(cells, found.as_slice());
    Ok(count)
}

// Checks a catalogue's text, and answers how many cells it reads to.
pub fn check(text: &[u8]) -> Result<usize, Fault>
    ensures { result ≡ mapped_ok length (read_into 8192 text.now) }
{
    read_within(text, MOST_CELLS, &mut Kept::<0>::new())
}

// Writes the text of lawful cells, and answers how long it is.
// A refusal leaves the text as it was, and past the result no byte is written.
#[tactic(auto, using(crate::proofs::TheLaw::reads_what_is_written))]
pub fn write(cells: &[u16], text: &mut [u8]) -> Result<usize, Fault>
    ensures fits { IfOk result (λ n. n ≤ length text.old) }
    ensures value { result ≡ mapped_ok length (write_into (length text.old) cells.now) }
    ensures after { text.new ≡ laid (write_into (length text.old) cells.now) text.old }
    ensures law { ReadsWhatIsWritten }
{
    let mut written = Text::new(0);
    put_catalogue(&mut written, cells).ok_or(FaultKind::UnlawfulCells.at(0))?;
    let written = written.as_slice();
    let count = written.len();
    if count > text.len() {
        return Err(FaultKind::TextDoesNotFit.at(0));
    }
    text[..count].copy_from_slice(written);
    Ok(count)
}
