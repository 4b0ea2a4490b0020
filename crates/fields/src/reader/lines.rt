ghost use Rattle.std.specs.Prelude.{◌≡◌, ◌+◌, ◌<◌, true, length, is_err, IfOk};
ghost use Rattle.std.specs.Option.{option_map};
ghost use Rattle.fields.specs.Results.{mapped_ok, beside};
ghost use Rattle.fields.specs.Values.{place_of};
ghost use Rattle.fields.specs.Lines.{cut_line, position, begun, next_line, keyed_line};

use super::Reader;
use crate::cutting::cut;
use crate::fault::{Fault, FaultKind};
use crate::word::past_key;

impl<'a> Reader<'a> {
    // A reader at the start of a text, unless that is too long to be read.
    pub fn open(text: &'a [u8]) -> Result<Reader<'a>, Fault>
        ensures { mapped_ok place_of result ≡ begun text.now }
    {
        if text.len() > 65_536 {
            return Err(FaultKind::TextTooLong.at(0));
        }
        Ok(Reader { line: 1, text })
    }

    // The line that comes next, without its end, and the text after it.
    #[tactic(auto, using(crate::proofs::LineViews::cut_length))]
    #[inline(always)]
    fn next_line(&self) -> Result<(&'a [u8], &'a [u8]), Fault>
        ensures shorter { IfOk result (λ x. length x.1.now < length (place_of self.now).text) }
        ensures value { mapped_ok (λ x. (x.0.now, position ((place_of self.now).line + 1) x.1.now)) result ≡ next_line (place_of self.now) }
    {
        let (line, rest) = cut(self.text).ok_or(FaultKind::LineMissing.at(self.line))?;
        if line.len() > 80 {
            return Err(FaultKind::LineTooLong.at(self.line));
        }
        Ok((line, rest))
    }

    // What follows the due key and "=" in the line that comes next, and goes past that line.
    #[inline(always)]
    pub fn value_of(&mut self, key: &[u8]) -> Result<&'a [u8], Fault>
        ensures refused { is_err result ≡ true → place_of self.new ≡ place_of self.old }
        ensures value { beside (mapped_ok (λ x. x.now) result) (place_of self.new) ≡ keyed_line key.now (place_of self.old) }
    {
        let (line, rest) = self.next_line()?;
        let value = past_key(line, key).ok_or(FaultKind::WrongKey.at(self.line))?;
        self.line += 1;
        self.text = rest;
        Ok(value)
    }
}
