//! Words with which statements begin and end.
use crate::reader::Reader;
use crate::word::next_word;
use tokens_ahead::reserved::is;

/// How a statement begins.
#[derive(Clone, Copy)]
pub enum Beginning {
    If,
    For,
    While,
    Fork,
    Try,
    Return,
    Break,
    Continue,
    /// An expression.
    Value,
    /// None does: the word stands behind the statements within another.
    End,
}

impl Reader<'_> {
    /// How the next statement begins. The word that says so is taken, unless it ends those before it.
    pub fn take_beginning(&mut self) -> Beginning {
        self.skip_blanks();
        let word = next_word(self.rest);
        let beginning = beginning_of(word);
        match beginning {
            Beginning::Value if self.rest.is_empty() => Beginning::End,
            Beginning::Value | Beginning::End => beginning,
            _ => {
                self.take_front(word.len());
                beginning
            }
        }
    }
}

// How a statement begins with this word, in whatever case.
fn beginning_of(word: &[u8]) -> Beginning {
    match word.len() {
        2 | 3 => of_three(word),
        4 => of_four(word),
        5 => of_five(word),
        6 => of_six(word),
        7 => of_seven(word),
        8 => of_eight(word),
        _ => Beginning::Value,
    }
}

fn of_three(word: &[u8]) -> Beginning {
    if is(word, b"if") {
        Beginning::If
    } else if is(word, b"for") {
        Beginning::For
    } else if is(word, b"try") {
        Beginning::Try
    } else {
        Beginning::Value
    }
}

fn of_four(word: &[u8]) -> Beginning {
    if is(word, b"else") {
        Beginning::End
    } else if is(word, b"fork") {
        Beginning::Fork
    } else {
        Beginning::Value
    }
}

fn of_five(word: &[u8]) -> Beginning {
    if is(word, b"endif") {
        Beginning::End
    } else if is(word, b"while") {
        Beginning::While
    } else if is(word, b"break") {
        Beginning::Break
    } else {
        Beginning::Value
    }
}

fn of_six(word: &[u8]) -> Beginning {
    if is(word, b"return") {
        Beginning::Return
    } else if is(word, b"endfor")
        || is(word, b"elseif")
        || is(word, b"except")
        || is(word, b"endtry")
    {
        Beginning::End
    } else {
        Beginning::Value
    }
}

fn of_seven(word: &[u8]) -> Beginning {
    if is(word, b"endfork") || is(word, b"finally") {
        Beginning::End
    } else {
        Beginning::Value
    }
}

fn of_eight(word: &[u8]) -> Beginning {
    if is(word, b"endwhile") {
        Beginning::End
    } else if is(word, b"continue") {
        Beginning::Continue
    } else {
        Beginning::Value
    }
}
