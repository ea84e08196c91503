//! Words as they are printed: eight hexadecimal digits and an `h`.
use std::fmt;

/// A word to be printed.
#[derive(Clone, Copy)]
pub struct Word(pub u32);

impl fmt::Display for Word {
    fn fmt<W: fmt::Write>(&self, f: &mut fmt::Formatter<W>) -> fmt::Result {
        let word = self.0;
        write!(f, "{word:08X}h")
    }
}
