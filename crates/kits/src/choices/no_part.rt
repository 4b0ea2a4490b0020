ghost use Rattle.std.specs.Prelude.{Some, codes};

use super::NoPart;
use std::error::Error;
use std::fmt;

impl fmt::Display for NoPart {
    ghost output = { λ _. Some (codes "a fixed number is no part") };

    fn fmt<W: fmt::Write>(&self, f: &mut fmt::Formatter<W>) -> fmt::Result {
        write!(f, "a fixed number is no part")
    }
}

impl Error for NoPart {}
