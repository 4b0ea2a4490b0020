ghost use Rattle.std.specs.Prelude.{◌≡◌, Some};
ghost use Rattle.fields.specs.Faults.{number_of, layer_of, source_of, fault, layer_name, fault_text};

use std::error::Error;
use std::fmt;

// Which question was answered "no".
#[derive(Clone, Copy, Debug, PartialEq, Eq)]
pub enum FaultKind {
    TextTooLong = 1,
    LineMissing = 2,
    LineTooLong = 3,
    WrongKey = 4,
    WrongForm = 5,
    OutOfRange = 6,
    SlotsNotRising = 7,
    TargetAmongSlots = 8,
    NoStandardSlot = 9,
    TextAfterEnd = 10,
    TooManyCells = 11,
    UnlawfulCells = 12,
    TextDoesNotFit = 13,
}

// How far a text was understood where its fault was met.
#[derive(Clone, Copy, Debug, PartialEq, Eq)]
pub enum Layer {
    Line,
    Field,
    Catalogue,
}

// The text that a fault is about.
#[derive(Clone, Copy, Debug, PartialEq, Eq)]
pub enum Source {
    Catalogue,
    Orders,
}

// A refusal: the question, and the line that it was asked of, from 1, or 0 where it names none, as the format of a fault has it.
#[derive(Clone, Copy, Debug, PartialEq, Eq)]
pub struct Fault {
    pub kind: FaultKind,
    pub line: u32,
}

impl FaultKind {
    // The number that clubs know the fault by.
    pub fn number(self) -> u8
        ensures { result ≡ number_of self }
    {
        self as u8
    }

    // A refusal by this question, of the line.
    pub fn at(self, line: u32) -> Fault
        ensures { result ≡ fault self line }
    {
        Fault { kind: self, line }
    }

    // The layer that asked, or none where no text is read.
    pub fn layer(self) -> Option<Layer>
        ensures { result ≡ layer_of self }
    {
        match self {
            FaultKind::TextTooLong | FaultKind::LineMissing | FaultKind::LineTooLong => Some(
                Layer::Line,
            ),
            FaultKind::WrongKey | FaultKind::WrongForm => Some(Layer::Field),
            FaultKind::OutOfRange
            | FaultKind::SlotsNotRising
            | FaultKind::TargetAmongSlots
            | FaultKind::NoStandardSlot
            | FaultKind::TextAfterEnd
            | FaultKind::TooManyCells => Some(Layer::Catalogue),
            FaultKind::UnlawfulCells | FaultKind::TextDoesNotFit => None,
        }
    }

    // The text that the fault is about, or none where no text is read.
    pub fn source(self) -> Option<Source>
        ensures { result ≡ source_of self }
    {
        match self {
            FaultKind::UnlawfulCells | FaultKind::TextDoesNotFit => None,
            _ => Some(Source::Catalogue),
        }
    }
}

impl fmt::Display for Layer {
    ghost output = { λ layer. Some (layer_name layer) };

    fn fmt<W: fmt::Write>(&self, f: &mut fmt::Formatter<W>) -> fmt::Result {
        f.write_str(match self {
            Layer::Line => "line",
            Layer::Field => "field",
            Layer::Catalogue => "catalogue",
        })
    }
}

impl fmt::Display for Fault {
    ghost output = { λ fault. Some (fault_text fault) };

    fn fmt<W: fmt::Write>(&self, f: &mut fmt::Formatter<W>) -> fmt::Result {
        let line = self.line;
        let code = self.kind.number();
        match self.kind.layer() {
            Some(layer) => write!(f, "line={line} code={code} layer={layer}"),
            None => write!(f, "line={line} code={code}"),
        }
    }
}

impl Error for Fault {}
