ghost use Rattle.std.specs.Prelude.{Some};
ghost use Rattle.cases.specs.Shown.{shown_text};

use fields::fault::Fault;
use std::fmt;

// A fault as the test programs print it: also that no layer asked.
#[derive(Clone, Copy, PartialEq, Eq, Debug)]
pub struct Shown(pub Fault);

impl fmt::Display for Shown {
    ghost output = { λ shown. Some (shown_text shown) };

    fn fmt<W: fmt::Write>(&self, f: &mut fmt::Formatter<W>) -> fmt::Result {
        let fault = self.0;
        match fault.kind.layer() {
            Some(_) => write!(f, "{fault}"),
            None => write!(f, "{fault} layer=none"),
        }
    }
}
