// Why a text is no text of numbers.
ghost use Rattle.numbers.specs.Telling.{fault_text, refusal_text};
ghost use Rattle.std.specs.Prelude.{Some};

use std::fmt;

#[derive(Clone, Copy, Debug, PartialEq)]
pub enum Fault {
    // A number above 2^32 - 1.
    TooLarge,
    // A character that is no digit, no blank and no line end, outside of comments.
    Character,
}

// The first fault, and the line that it stands in, counted from 1.
#[derive(Clone, Copy, Debug, PartialEq)]
pub struct Refusal {
    pub fault: Fault,
    pub line: usize,
}

impl fmt::Display for Fault {
    ghost output = { λ f. Some (fault_text f) };

    fn fmt<W: fmt::Write>(&self, f: &mut fmt::Formatter<W>) -> fmt::Result {
        match self {
            Fault::TooLarge => write!(f, "a number above 4294967295"),
            Fault::Character => {
                write!(f, "a character that is no digit, no blank and no line end")
            }
        }
    }
}

impl fmt::Display for Refusal {
    ghost output = { λ r. Some (refusal_text r) };

    fn fmt<W: fmt::Write>(&self, f: &mut fmt::Formatter<W>) -> fmt::Result {
        let line = self.line;
        let fault = self.fault;
        write!(f, "line {line}: {fault}")
    }
}
