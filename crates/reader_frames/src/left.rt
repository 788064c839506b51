//! The tokens that are left, and how they are taken.

ghost use Rattle.std.specs.Prelude.{◌≡◌, ◌∷◌, OnOk, IfOk};
ghost use Rattle.spec_program.specs.Reading.{is_sign, is_keyword};
ghost use Rattle.spec_program.specs.Moves.{begins_with};
ghost use Rattle.spec_reader.specs.Next.{taken, taken_word};
ghost use Rattle.spec_reader.specs.Begins.{taken_word_alone};
ghost use Rattle.moo_token.specs.Views.{place_of};
ghost use Rattle.moo_token.specs.Meaning.{sign_meant, keyword_meant, place_meant};
ghost use Rattle.reader_frames.specs.LeftView.{left_of, word_of, Takes, begins_with_keyword, second_ends_item};

use crate::number::{is_keyword, is_sign};
use crate::words::allowed_text;
use moo_token::fault::TokenFault;
use moo_token::token::{Keyword, Placed, Sign, Token};
use moo_value::text::Text;
use std::alloc::AllocError;
use std::collections::VecDeque;

/// Tokens up to the end of the text or up to its first fault.
#[derive(Drop)]
pub struct Rest {
    pub tokens: VecDeque<Placed>,
    pub fault: Option<TokenFault>,
}

/// The tokens that are left.
#[derive(Drop)]
pub struct Left {
    pub rest: Box<Rest>,
}

/// A word as it is written, and its line.
#[derive(Drop)]
pub struct Word {
    pub text: Text,
    pub line: u64,
}

impl Left {
    /// Takes the next token, if there is one.
    pub fn take(&mut self) -> Option<Placed>
        ensures { Takes (left_of self.old) result (left_of self.new) self.new.rest.value.fault }
    {
        self.rest.tokens.pop_front()
    }

    /// Puts a token back before the others.
    pub fn put_back(&mut self, placed: Placed) -> Result<(), AllocError>
        ensures { OnOk result (left_of self.new ≡ place_meant (place_of placed) ∷ left_of self.old) }
    {
        self.rest.tokens.push_front(placed)?;
        Ok(())
    }

    /// Whether the next token is this sign.
    pub fn begins_with(&self, sign: Sign) -> bool
        ensures { result ≡ begins_with (sign_meant sign) (left_of self.now) }
    {
        match self.rest.tokens.front() {
            Some(placed) => is_sign(sign, &placed.token),
            None => false,
        }
    }

    // Whether the next token is this word.
    fn begins_with_keyword(&self, keyword: Keyword) -> bool
        ensures { result ≡ begins_with_keyword (keyword_meant keyword) (left_of self.now) }
    {
        match self.rest.tokens.front() {
            Some(placed) => is_keyword(keyword, &placed.token),
            None => false,
        }
    }

    /// Takes the next token if it is this sign, and tells whether it was.
    pub fn take_sign(&mut self, sign: Sign) -> bool
        ensures there { result ≡ (taken (is_sign (sign_meant sign)) (left_of self.old)).there }
        ensures left { left_of self.new ≡ (taken (is_sign (sign_meant sign)) (left_of self.old)).left }
    {
        let there = self.begins_with(sign);
        if there {
            self.rest.tokens.pop_front();
        }
        there
    }

    /// Takes the next token if it is this word, and tells whether it was.
    pub fn take_keyword(&mut self, keyword: Keyword) -> bool
        ensures there { result ≡ (taken (is_keyword (keyword_meant keyword)) (left_of self.old)).there }
        ensures left { left_of self.new ≡ (taken (is_keyword (keyword_meant keyword)) (left_of self.old)).left }
    {
        let there = self.begins_with_keyword(keyword);
        if there {
            self.rest.tokens.pop_front();
        }
        there
    }

    /// Takes the next token if it is a name.
    pub fn take_word(&mut self) -> Result<Option<Word>, AllocError>
        ensures word { IfOk result (λ w. word_of w ≡ (taken_word (left_of self.old)).word) }
        ensures left { OnOk result (left_of self.new ≡ (taken_word (left_of self.old)).left) }
    {
        let Some(placed) = self.take() else {
            return Ok(None);
        };
        let Placed { token, line } = placed;
        match token {
            Token::Identifier(bytes) => {
                let text = allowed_text(bytes)?;
                Ok(Some(Word { text, line }))
            }
            token => {
                self.put_back(Placed { token, line })?;
                Ok(None)
            }
        }
    }

    // Whether an item of braces ends behind the next token.
    #[tactic(auto, using(crate::proofs::Seconds::no_second))]
    fn second_ends_item(&self) -> bool
        ensures { result ≡ second_ends_item (left_of self.now) }
    {
        match self.rest.tokens.get(1) {
            Some(placed) => {
                is_sign(Sign::Comma, &placed.token) || is_sign(Sign::CloseBrace, &placed.token)
            }
            None => false,
        }
    }

    /// Takes the next token if it is a name that is an item of braces by itself.
    pub fn take_word_alone(&mut self) -> Result<Option<Word>, AllocError>
        ensures word { IfOk result (λ w. word_of w ≡ (taken_word_alone (left_of self.old)).word) }
        ensures left { OnOk result (left_of self.new ≡ (taken_word_alone (left_of self.old)).left) }
    {
        if !self.second_ends_item() {
            return Ok(None);
        }
        self.take_word()
    }
}
