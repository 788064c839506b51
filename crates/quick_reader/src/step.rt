//! What stands right behind an operand.
use crate::reader::Reader;

/// What goes on right behind an operand.
#[derive(Clone, Copy)]
pub enum Step {
    /// `.`
    Property,
    /// `:`
    Verb,
    /// `[`
    Bracket,
}

impl Reader<'_> {
    /// Takes the sign of what goes on right behind an operand, if one is next.
    pub fn take_step(&mut self) -> Option<Step> {
        self.skip_blanks();
        let step = match self.byte(0) {
            b'.' if self.byte(1) != b'.' => Step::Property,
            b':' => Step::Verb,
            b'[' => Step::Bracket,
            _ => return None,
        };
        self.take_front(1);
        Some(step)
    }
}
