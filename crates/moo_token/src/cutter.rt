//! The machine that takes a byte at a time.

ghost use Rattle.std.specs.Prelude.{◌≡◌, ◌∷◌, ◌++◌, ◌+◌, ◌-◌, ◌*◌, ◌<◌, ◌≤◌, ◌^◌, [], OnOk};
ghost use Rattle.spec_value.specs.Datum as datum;
ghost use Rattle.moo_token.specs.Tokens as tokens;
ghost use Rattle.moo_token.specs.Cutting as spec;
ghost use Rattle.moo_token.specs.Views.{token_of, places, state_of, Stepped, Finished};
ghost use Rattle.moo_token.specs.declared.cutter.CutError.TheVariants.{Memory};

use crate::fault::FaultKind;
use crate::token::{Placed, Sign, Token};
use crate::words::word_token;
use std::alloc::{AllocError, AllocFailed, Global};

const MAX_NUMBER: u64 = 2147483648;

const MAX_OBJECT: u64 = 2147483647;

/// The token that was begun.
#[derive(Clone, Copy, Debug, PartialEq, Eq)]
pub enum Pending {
    Nothing,
    InWord,
    InNumber(u32),
    AfterHash,
    AfterMinus,
    InObject(bool, u32),
    InText,
    InEscape,
    AfterText,
    AfterAmpersand,
    AfterSign(Sign),
}

#[derive(Debug, Drop)]
pub enum CutError {
    Memory,
    Fault(FaultKind),
}

impl From<AllocError> for CutError {
    ghost from_gives = { λ _ e. e ≡ Memory };

    fn from(_error: AllocError) -> CutError {
        CutError::Memory
    }
}

impl<T: Drop> From<AllocFailed<T>> for CutError {
    ghost from_gives = { λ _ e. e ≡ Memory };

    fn from(_error: AllocFailed<T>) -> CutError {
        CutError::Memory
    }
}

#[derive(Drop)]
pub struct Cutter {
    pub pending: Pending,
    pub buffer: Vec<u8>,
    pub out: Vec<Placed>,
    pub line: u64,
}

fn is_letter(b: u8) -> bool
    ensures { result ≡ tokens.is_letter b }
{
    b.is_ascii_alphabetic() || b == b'_'
}

fn is_word(b: u8) -> bool
    ensures { result ≡ tokens.is_word b }
{
    is_letter(b) || b.is_ascii_digit()
}

fn is_blank(b: u8) -> bool
    ensures { result ≡ tokens.is_blank b }
{
    b == b' ' || b == b'\t' || b == b'\n'
}

fn is_character(b: u8) -> bool
    ensures { result ≡ datum.is_character b }
{
    b == b'\t' || (32 <= b && b <= 126)
}

fn sign_of(b: u8) -> Option<Sign>
    ensures { result ≡ tokens.sign_of b }
{
    match b {
        b'(' => Some(Sign::OpenParenthesis),
        b')' => Some(Sign::CloseParenthesis),
        b'[' => Some(Sign::OpenBracket),
        b']' => Some(Sign::CloseBracket),
        b'{' => Some(Sign::OpenBrace),
        b'}' => Some(Sign::CloseBrace),
        b';' => Some(Sign::Semicolon),
        b',' => Some(Sign::Comma),
        b':' => Some(Sign::Colon),
        b'.' => Some(Sign::Dot),
        b'=' => Some(Sign::Assign),
        b'!' => Some(Sign::Not),
        b'+' => Some(Sign::Plus),
        b'-' => Some(Sign::Minus),
        b'*' => Some(Sign::Times),
        b'/' => Some(Sign::Slash),
        b'%' => Some(Sign::Percent),
        b'^' => Some(Sign::Caret),
        b'<' => Some(Sign::Less),
        b'>' => Some(Sign::Greater),
        b'|' => Some(Sign::Bar),
        b'?' => Some(Sign::Question),
        b'$' => Some(Sign::Dollar),
        b'@' => Some(Sign::At),
        b'`' => Some(Sign::Backquote),
        b'\'' => Some(Sign::Quote),
        _ => None,
    }
}

fn longer(sign: Sign, b: u8) -> Option<Sign>
    ensures { result ≡ spec.longer sign b }
{
    match sign {
        Sign::Dot => if b == b'.' {
            Some(Sign::DoubleDot)
        } else {
            None
        },
        Sign::Assign => {
            if b == b'=' {
                Some(Sign::Equal)
            } else if b == b'>' {
                Some(Sign::Arrow)
            } else {
                None
            }
        }
        Sign::Not => if b == b'=' { Some(Sign::Differs) } else { None },
        Sign::Less => if b == b'=' {
            Some(Sign::LessOrEqual)
        } else {
            None
        },
        Sign::Greater => if b == b'=' {
            Some(Sign::GreaterOrEqual)
        } else {
            None
        },
        Sign::Bar => if b == b'|' { Some(Sign::Or) } else { None },
        _ => None,
    }
}

fn max_object(minus: bool) -> u64
    ensures { result ≡ tokens.max_object minus }
{
    if minus { MAX_NUMBER } else { MAX_OBJECT }
}

impl Cutter {
    pub fn new(alloc: Global) -> Self
        ensures { state_of result ≡ spec.fresh [] 1 }
    {
        Cutter {
            pending: Pending::Nothing,
            buffer: Vec::new(alloc),
            out: Vec::new(alloc),
            line: 1,
        }
    }

    fn put(&mut self, token: Token) -> Result<(), AllocError>
        ensures out { OnOk result (places self.new.out.items ≡ spec.with_token (places self.old.out.items) (token_of token) self.old.line) }
        ensures pending { self.new.pending ≡ self.old.pending }
        ensures buffer { self.new.buffer ≡ self.old.buffer }
        ensures line { self.new.line ≡ self.old.line }
    {
        let line = self.line;
        self.out.push(Placed { token, line })?;
        Ok(())
    }

    fn take_buffer(&mut self, alloc: Global) -> Vec<u8>
        ensures items { result.items ≡ self.old.buffer.items }
        ensures buffer { self.new.buffer.items ≡ [] }
        ensures pending { self.new.pending ≡ self.old.pending }
        ensures out { self.new.out ≡ self.old.out }
        ensures line { self.new.line ≡ self.old.line }
    {
        std::mem::replace(&mut self.buffer, Vec::new(alloc))
    }

    fn put_word(&mut self, alloc: Global) -> Result<(), AllocError>
        ensures out { OnOk result (places self.new.out.items ≡ spec.with_token (places self.old.out.items) (tokens.word_of self.old.buffer.items) self.old.line) }
        ensures buffer { self.new.buffer.items ≡ [] }
        ensures line { self.new.line ≡ self.old.line }
    {
        let word = self.take_buffer(alloc);
        let token = word_token(alloc, word)?;
        self.put(token)
    }

    fn begin(&mut self, b: u8) -> Result<(), CutError>
        requires empty { self.old.buffer.items ≡ [] }
        requires room { self.old.line + 1 < 2 ^ 64 }
        ensures { Stepped (spec.begin b (places self.old.out.items) self.old.line) result self.new }
    {
        if is_letter(b) {
            self.buffer.push(b)?;
            self.pending = Pending::InWord;
        } else if b.is_ascii_digit() {
            self.pending = Pending::InNumber((b - b'0') as u32);
        } else if b == b'"' {
            self.pending = Pending::InText;
        } else if is_blank(b) {
            self.pending = Pending::Nothing;
            if b == b'\n' {
                self.line += 1;
            }
        } else if b == b'#' {
            self.pending = Pending::AfterHash;
        } else if b == b'&' {
            self.pending = Pending::AfterAmpersand;
        } else {
            match sign_of(b) {
                Some(sign) => self.pending = Pending::AfterSign(sign),
                None => return Err(CutError::Fault(FaultKind::Character)),
            }
        }
        Ok(())
    }

    fn in_word(&mut self, alloc: Global, b: u8) -> Result<(), CutError>
        requires { self.old.line + 1 < 2 ^ 64 }
        ensures { Stepped (spec.step_by b Pending.InWord self.old.buffer.items (places self.old.out.items) self.old.line) result self.new }
    {
        if is_word(b) {
            self.buffer.push(b)?;
            self.pending = Pending::InWord;
            return Ok(());
        }
        self.put_word(alloc)?;
        self.begin(b)
    }

    fn in_number(&mut self, n: u32, b: u8) -> Result<(), CutError>
        requires empty { self.old.buffer.items ≡ [] }
        requires room { self.old.line + 1 < 2 ^ 64 }
        ensures { Stepped (spec.in_number b n (places self.old.out.items) self.old.line) result self.new }
    {
        if b.is_ascii_digit() {
            let more = 10 * n as u64 + (b - b'0') as u64;
            if more > MAX_NUMBER {
                return Err(CutError::Fault(FaultKind::Number));
            }
            self.pending = Pending::InNumber(more as u32);
            return Ok(());
        }
        self.put(Token::Integer(n))?;
        self.begin(b)
    }

    fn after_hash(&mut self, b: u8) -> Result<(), CutError>
        requires { self.old.buffer.items ≡ [] }
        ensures { Stepped (spec.after_hash b (places self.old.out.items) self.old.line) result self.new }
    {
        if b.is_ascii_digit() {
            self.pending = Pending::InObject(false, (b - b'0') as u32);
        } else if b == b'-' {
            self.pending = Pending::AfterMinus;
        } else {
            return Err(CutError::Fault(FaultKind::Character));
        }
        Ok(())
    }

    fn after_minus(&mut self, b: u8) -> Result<(), CutError>
        requires { self.old.buffer.items ≡ [] }
        ensures { Stepped (spec.after_minus b (places self.old.out.items) self.old.line) result self.new }
    {
        if b.is_ascii_digit() {
            self.pending = Pending::InObject(true, (b - b'0') as u32);
            Ok(())
        } else {
            Err(CutError::Fault(FaultKind::Character))
        }
    }

    fn in_object(&mut self, minus: bool, n: u32, b: u8) -> Result<(), CutError>
        requires empty { self.old.buffer.items ≡ [] }
        requires room { self.old.line + 1 < 2 ^ 64 }
        ensures { Stepped (spec.in_object b minus n (places self.old.out.items) self.old.line) result self.new }
    {
        if b.is_ascii_digit() {
            let more = 10 * n as u64 + (b - b'0') as u64;
            if more > max_object(minus) {
                return Err(CutError::Fault(FaultKind::Number));
            }
            self.pending = Pending::InObject(minus, more as u32);
            return Ok(());
        }
        self.put(Token::Object(minus, n))?;
        self.begin(b)
    }

    fn in_text(&mut self, b: u8) -> Result<(), CutError>
        ensures { Stepped (spec.in_text b self.old.buffer.items (places self.old.out.items) self.old.line) result self.new }
    {
        if b == b'"' {
            self.pending = Pending::AfterText;
        } else if b == b'\\' {
            self.pending = Pending::InEscape;
        } else if is_character(b) {
            self.buffer.push(b)?;
            self.pending = Pending::InText;
        } else if b == b'\n' {
            return Err(CutError::Fault(FaultKind::Unclosed));
        } else {
            return Err(CutError::Fault(FaultKind::Character));
        }
        Ok(())
    }

    fn in_escape(&mut self, b: u8) -> Result<(), CutError>
        ensures { Stepped (spec.in_escape b self.old.buffer.items (places self.old.out.items) self.old.line) result self.new }
    {
        if is_character(b) {
            self.buffer.push(b)?;
            self.pending = Pending::InText;
        } else if b == b'\n' {
            return Err(CutError::Fault(FaultKind::Unclosed));
        } else {
            return Err(CutError::Fault(FaultKind::Character));
        }
        Ok(())
    }

    fn after_text(&mut self, alloc: Global, b: u8) -> Result<(), CutError>
        requires { self.old.line + 1 < 2 ^ 64 }
        ensures { Stepped (spec.step_by b Pending.AfterText self.old.buffer.items (places self.old.out.items) self.old.line) result self.new }
    {
        let text = self.take_buffer(alloc);
        self.put(Token::Text(text))?;
        self.begin(b)
    }

    fn after_ampersand(&mut self, b: u8) -> Result<(), CutError>
        requires { self.old.buffer.items ≡ [] }
        ensures { Stepped (spec.after_ampersand b (places self.old.out.items) self.old.line) result self.new }
    {
        if b == b'&' {
            self.pending = Pending::AfterSign(Sign::And);
            Ok(())
        } else {
            Err(CutError::Fault(FaultKind::Character))
        }
    }

    fn after_sign(&mut self, sign: Sign, b: u8) -> Result<(), CutError>
        requires empty { self.old.buffer.items ≡ [] }
        requires room { self.old.line + 1 < 2 ^ 64 }
        ensures { Stepped (spec.step_by b (Pending.AfterSign sign) self.old.buffer.items (places self.old.out.items) self.old.line) result self.new }
    {
        match longer(sign, b) {
            Some(sign) => {
                self.pending = Pending::AfterSign(sign);
                Ok(())
            }
            None => {
                self.put(Token::Sign(sign))?;
                self.begin(b)
            }
        }
    }

    /// The next byte of the text.
    pub fn step(&mut self, alloc: Global, b: u8) -> Result<(), CutError>
        requires fits { spec.Fits (state_of self.old) }
        requires room { self.old.line + 1 < 2 ^ 64 }
        ensures { Stepped (spec.step b (state_of self.old)) result self.new }
    {
        match self.pending {
            Pending::Nothing => self.begin(b),
            Pending::InWord => self.in_word(alloc, b),
            Pending::InNumber(n) => self.in_number(n, b),
            Pending::AfterHash => self.after_hash(b),
            Pending::AfterMinus => self.after_minus(b),
            Pending::InObject(minus, n) => self.in_object(minus, n, b),
            Pending::InText => self.in_text(b),
            Pending::InEscape => self.in_escape(b),
            Pending::AfterText => self.after_text(alloc, b),
            Pending::AfterAmpersand => self.after_ampersand(b),
            Pending::AfterSign(sign) => self.after_sign(sign, b),
        }
    }

    /// The end of the text.
    pub fn finish(&mut self, alloc: Global) -> Result<(), CutError>
        ensures { Finished (spec.finish self.old.pending self.old.buffer.items (places self.old.out.items) self.old.line) result self.new }
    {
        match self.pending {
            Pending::Nothing => {}
            Pending::InWord => self.put_word(alloc)?,
            Pending::InNumber(n) => self.put(Token::Integer(n))?,
            Pending::InObject(minus, n) => self.put(Token::Object(minus, n))?,
            Pending::AfterHash | Pending::AfterMinus | Pending::AfterAmpersand => {
                return Err(CutError::Fault(FaultKind::Character));
            }
            Pending::InText | Pending::InEscape => return Err(CutError::Fault(FaultKind::Unclosed)),
            Pending::AfterText => {
                let text = self.take_buffer(alloc);
                self.put(Token::Text(text))?;
            }
            Pending::AfterSign(sign) => self.put(Token::Sign(sign))?,
        }
        Ok(())
    }
}
