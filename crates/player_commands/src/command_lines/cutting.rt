//! A line cut into words, a character at a time.
ghost use Rattle.std.specs.Prelude.{◌≡◌, ◌∷◌, ◌++◌, [], false, ℕ, List, IsTrue, OnOk, IfOk};
ghost use Rattle.spec_value.specs.Datum.{Text as Characters, is_character, is_text};
ghost use Rattle.spec_world.specs.Words.{Readings, readings, at_the_end, sign};
ghost use Rattle.player_commands.specs.Cutting.{Fits, rest_of, with_character, sign_of};

use moo_text::characters::text_of;
use moo_value::text::Text;
use std::alloc::{AllocError, Global};

/// What a character does.
#[derive(Clone, Copy, PartialEq, Eq)]
pub(crate) enum Sign {
    Space,
    Quote,
    Backslash,
    Other,
}

impl Sign {
    pub fn of(byte: u8) -> Sign
        ensures { sign_of result ≡ sign byte }
    {
        match byte {
            b' ' => Sign::Space,
            b'"' => Sign::Quote,
            b'\\' => Sign::Backslash,
            _ => Sign::Other,
        }
    }
}

/// Where a line is read.
#[derive(Clone, Copy, PartialEq, Eq)]
pub(crate) enum Place {
    Between,
    Bare,
    Quoted,
}

/// The words so far, and the one that is under way.
#[derive(Drop)]
pub(crate) struct Cutting {
    pub words: Vec<Text>,
    pub word: Vec<u8>,
    pub place: Place,
    /// Whether a backslash stands before the next character.
    pub escaped: bool,
}

impl Cutting {
    pub fn new(alloc: Global) -> Cutting
        ensures fits { Fits result }
        ensures begins { (r : Readings) → rest_of result r ≡ r.between }
    {
        Cutting {
            words: Vec::new(alloc),
            word: Vec::new(alloc),
            place: Place::Between,
            escaped: false,
        }
    }

    /// The next character.
    #[tactic(auto, using(crate::proofs::Reading::escaped_read, crate::proofs::Reading::other_read, crate::proofs::Reading::quoted_space, crate::proofs::Reading::backslash_read, crate::proofs::Reading::quote_opens, crate::proofs::Reading::quote_within, crate::proofs::Reading::quote_closes, crate::proofs::Reading::space_between, crate::proofs::Reading::space_behind))]
    pub fn read(&mut self, alloc: Global, byte: u8) -> Result<(), AllocError>
        requires fits { Fits self.old }
        requires character { IsTrue (is_character byte) }
        ensures fits { OnOk result (Fits self.new) }
        ensures rest { OnOk result ((t : Characters) → rest_of self.old (readings (byte ∷ t)) ≡ rest_of self.new (readings t)) }
    {
        if self.escaped {
            self.escaped = false;
            return self.take(byte);
        }
        match (Sign::of(byte), self.place) {
            (Sign::Space, Place::Between) => Ok(()),
            (Sign::Space, Place::Bare) => self.end_word(alloc),
            (Sign::Space, Place::Quoted) => self.take(byte),
            (Sign::Quote, Place::Between) => {
                self.place = Place::Quoted;
                Ok(())
            }
            (Sign::Quote, Place::Bare) => {
                self.place = Place::Quoted;
                Ok(())
            }
            (Sign::Quote, Place::Quoted) => {
                self.place = Place::Bare;
                Ok(())
            }
            (Sign::Backslash, _) => {
                self.escaped = true;
                Ok(())
            }
            (Sign::Other, _) => self.take(byte),
        }
    }

    // A character of the word.
    #[tactic(auto, using(crate::proofs::Reading::text_grows, crate::proofs::Reading::goes_on_with))]
    fn take(&mut self, byte: u8) -> Result<(), AllocError>
        requires fits { Fits self.old }
        requires plain { self.old.escaped ≡ false }
        requires character { IsTrue (is_character byte) }
        ensures fits { OnOk result (Fits self.new) }
        ensures rest { OnOk result ((r : Readings) → rest_of self.new r ≡ self.old.words.items ++ with_character byte self.old.place self.old.word.items r) }
    {
        self.word.push(byte)?;
        match self.place {
            Place::Between => self.place = Place::Bare,
            Place::Bare | Place::Quoted => {}
        }
        Ok(())
    }

    // The word has ended.
    #[tactic(auto, using(crate::proofs::Reading::word_ends))]
    fn end_word(&mut self, alloc: Global) -> Result<(), AllocError>
        requires fits { Fits self.old }
        requires plain { self.old.escaped ≡ false }
        ensures fits { OnOk result (Fits self.new) }
        ensures words { OnOk result (self.new.words.items ≡ self.old.words.items ++ self.old.word.items ∷ []) }
        ensures rest { OnOk result ((r : Readings) → rest_of self.new r ≡ self.old.words.items ++ self.old.word.items ∷ r.between) }
    {
        let word = std::mem::replace(&mut self.word, Vec::new(alloc));
        self.words.push(text_of(alloc, &word)?)?;
        self.place = Place::Between;
        Ok(())
    }

    /// The words, at the end of the line.
    #[tactic(auto, using(crate::proofs::Reading::last_word, crate::proofs::Reading::last_bare, crate::proofs::Reading::last_quoted))]
    pub fn finish(self, alloc: Global) -> Result<Vec<Text>, AllocError>
        requires fits { Fits self }
        ensures { IfOk result (λ v. v.items ≡ rest_of self at_the_end) }
    {
        let Cutting {
            mut words,
            word,
            place,
            escaped: _,
        } = self;
        match place {
            Place::Between => {}
            Place::Bare | Place::Quoted => words.push(text_of(alloc, &word)?)?,
        }
        Ok(words)
    }
}
