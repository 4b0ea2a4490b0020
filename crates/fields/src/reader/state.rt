ghost use Rattle.std.specs.Prelude.{◌≡◌, [], length, ◌==◌};
ghost use Rattle.fields.specs.Lines.{position};
ghost use Rattle.fields.specs.Values.{place_of};

use super::Reader;

impl<'a> Reader<'a> {
    // The number of the line that comes next.
    pub fn line(&self) -> u32
        ensures { result ≡ (place_of self.now).line }
    {
        self.line
    }

    // Is the text at its end?
    pub fn is_end(&self) -> bool
        ensures { result ≡ (length (place_of self.now).text == 0) }
    {
        self.text.is_empty()
    }
}
