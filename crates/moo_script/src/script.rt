//! Reading a script.
ghost use Rattle.std.specs.Prelude.{◌≡◌, ◌++◌, ◌∷◌, ◌==◌, ℕ, List, length, codes, position, IfSome, IfOk, IfErr, IsTrue, IsFalse, MatchOption};
ghost use Rattle.spec_value.specs.Datum.{is_text};
ghost use Rattle.moo_script.specs.Lines.{Says, IsRefused, letters, word_meaning, numbered, number_fits};
ghost use Rattle.moo_script.specs.declared.script.Word.{Word as Meant};
ghost use Rattle.moo_script.specs.Numbers.{is_number, number_value};
ghost use Rattle.moo_script.specs.Scripts.{is_one_line, GivesKey, GiveSteps, IsScript, IsBodyFault, Fault, IsFault};

use crate::fault::{LineFault, ScriptFault};
use crate::fields::{is_field, split_field};
use crate::number::{read_key, read_number};
use moo_value::text::Text;
use std::alloc::{AllocError, Global};
use task_step::step::{Event, LONGEST_LINE, Step};

/// What stands before a number that is alone in its line.
#[derive(Clone, Copy)]
enum Word {
    Moment,
    Open,
    Close,
    Ready,
}

/// The greatest number of a task in a script.
const GREATEST_TASK: u32 = 2_147_483_647;

/// What a line says.
#[derive(Drop)]
enum Command {
    Moment(u32),
    Event(Event),
}

/// Why a line says nothing.
#[derive(Drop)]
enum Refusal {
    Fault(LineFault),
    Memory(AllocError),
}

/// The steps of a script, numbered on from the first number given. Each line of a script ends with a line end. The first is `key H`, then come
/// `moment N`, `open C`, `line C TEXT`, `close C` and `ready ID` in any order; the moment begins at 0. The earliest faulty line decides, in it the first kind of fault.
pub fn read_script(
    alloc: Global,
    script: &[u8],
    first_number: u32,
) -> Result<Vec<Step>, ScriptFault>
    ensures says { IfOk result (λ steps. IsScript script.now first_number steps.items) }
    ensures fault { IfErr result (λ f. IsFault script.now f) }
{
    let (key, body) = match read_first(script) {
        Ok(first) => first,
        Err(kind) => return Err(ScriptFault::Line { line: 1, kind }),
    };
    read_body(alloc, body, key, first_number)
}

// The steps of the lines behind the first one.
#[tactic(auto, using(crate::proofs::Scripts::begun, crate::proofs::Scripts::steps_given))]
fn read_body(
    alloc: Global,
    body: &[u8],
    key: [u8; 32],
    first_number: u32,
) -> Result<Vec<Step>, ScriptFault>
    ensures says { IfOk result (λ steps. GiveSteps body.now key first_number steps.items) }
    ensures fault { IfErr result (λ f. IsBodyFault body.now f) }
{
    let mut steps = Vec::new(alloc);
    let mut rest = body;
    let mut moment = 0u32;
    let mut number = first_number;
    let mut line = 1usize;
    while !rest.is_empty() {
        line = line.saturating_add(1);
        let Some((text, after)) = split_line(rest) else {
            return Err(ScriptFault::Line {
                line,
                kind: LineFault::Word,
            });
        };
        match read_line(alloc, text) {
            Ok(Command::Moment(seconds)) => {
                moment = seconds;
                rest = after;
            }
            Ok(Command::Event(event)) => {
                let step = Step {
                    number,
                    moment,
                    key,
                    event,
                };
                if let Err(error) = steps.push(step) {
                    return Err(ScriptFault::Memory(AllocError::from(error)));
                }
                number = number.saturating_add(1);
                rest = after;
            }
            Err(Refusal::Fault(kind)) => return Err(ScriptFault::Line { line, kind }),
            Err(Refusal::Memory(error)) => return Err(ScriptFault::Memory(error)),
        }
    }
    Ok(steps)
}

// The key of the first line, and the lines after it; or what is wrong with the first line.
#[tactic(auto, using(crate::proofs::Scripts::first_says, crate::proofs::Scripts::first_key, crate::proofs::Scripts::first_alone))]
fn read_first(script: &[u8]) -> Result<([u8; 32], &[u8]), LineFault>
    ensures says { IfOk result (λ p. (line : List ℕ) × (script.now ≡ line ++ 10 ∷ p.1.now) × GivesKey line p.0) }
    ensures fault { IfErr result (λ kind. Fault script.now 1 kind) }
{
    let Some((line, body)) = split_line(script) else {
        return match read_key_line(script) {
            Some(_) => Err(LineFault::Word),
            None => Err(LineFault::Key),
        };
    };
    match read_key_line(line) {
        Some(key) => Ok((key, body)),
        None => Err(LineFault::Key),
    }
}

#[tactic(auto, using(crate::proofs::Scripts::gives_key, crate::proofs::Scripts::no_key_word, crate::proofs::Scripts::no_key_digits))]
fn read_key_line(line: &[u8]) -> Option<[u8; 32]>
    ensures { MatchOption result ((key : List ℕ) → GivesKey line.now key → ⊥) (λ key. GivesKey line.now key) }
{
    let Some(digits) = line.strip_prefix(b"key ".as_slice()) else {
        return None;
    };
    read_key(digits)
}

// The first line without its line end, and what follows it.
fn split_line(bytes: &[u8]) -> Option<(&[u8], &[u8])>
    ensures { MatchOption result (IsTrue (is_one_line bytes.now)) (λ p. IsTrue (is_one_line p.0.now) × (bytes.now ≡ p.0.now ++ 10 ∷ p.1.now)) }
{
    let Some(at) = find_end(bytes) else {
        return None;
    };
    Some((&bytes[..at], &bytes[at + 1..]))
}

fn find_end(bytes: &[u8]) -> Option<usize>
    ensures { result ≡ position (λ b. b == 10) bytes.now }
{
    bytes.iter().position(|byte| *byte == b'\n')
}

// What a line after the first one says, or the first kind of fault that it has.
#[tactic(auto, using(crate::proofs::Forms::begins, crate::proofs::Forms::other_word, crate::proofs::Forms::says_so, crate::proofs::Forms::refused_so))]
fn read_line(alloc: Global, line: &[u8]) -> Result<Command, Refusal>
    ensures says { IfOk result (λ c. Says line.now c) }
    ensures refused { IfErr result (λ r. IsRefused line.now r) }
{
    if let Some(rest) = line.strip_prefix(b"line ".as_slice()) {
        return read_input(alloc, rest);
    }
    match split_word(line) {
        Some((word, field)) => read_numbered(word, field),
        None => Err(Refusal::Fault(LineFault::Word)),
    }
}

// The word that a line begins with, and what stands behind it.
#[tactic(auto, using(crate::proofs::Forms::begins, crate::proofs::Forms::no_word))]
fn split_word(line: &[u8]) -> Option<(Word, &[u8])>
    ensures { MatchOption result ((w : Meant) (f : List ℕ) → line.now ≡ letters w ++ f → ⊥) (λ p. line.now ≡ letters p.0 ++ p.1.now) }
{
    if let Some(field) = line.strip_prefix(b"moment ".as_slice()) {
        return Some((Word::Moment, field));
    }
    if let Some(field) = line.strip_prefix(b"open ".as_slice()) {
        return Some((Word::Open, field));
    }
    if let Some(field) = line.strip_prefix(b"close ".as_slice()) {
        return Some((Word::Close, field));
    }
    if let Some(field) = line.strip_prefix(b"ready ".as_slice()) {
        return Some((Word::Ready, field));
    }
    None
}

// A word and its number.
#[tactic(auto, using(crate::proofs::Forms::numbered_says, crate::proofs::Forms::numbered_number, crate::proofs::Forms::no_number, crate::proofs::Forms::numbered_word))]
fn read_numbered(word: Word, field: &[u8]) -> Result<Command, Refusal>
    ensures says { IfOk result (λ c. Says (letters word ++ field.now) c) }
    ensures refused { IfErr result (λ r. IsRefused (letters word ++ field.now) r) }
{
    if !is_field(field) {
        return Err(Refusal::Fault(LineFault::Word));
    }
    let Some(number) = read_number(field) else {
        return Err(Refusal::Fault(LineFault::Number));
    };
    match command_of(word, number) {
        Some(command) => Ok(command),
        None => Err(Refusal::Fault(LineFault::Number)),
    }
}

// What a word means with its number, if a task can have that one.
#[tactic(auto, using(crate::proofs::Forms::too_great, crate::proofs::Forms::in_bounds))]
fn command_of(word: Word, number: u32) -> Option<Command>
    ensures { (f : List ℕ) → IsTrue (is_number f) → number ≡ number_value f → MatchOption result (IsFalse (number_fits (numbered word f))) (λ c. IsTrue (number_fits (numbered word f)) × (c ≡ word_meaning word (number_value f))) }
{
    match word {
        Word::Moment => Some(Command::Moment(number)),
        Word::Open => Some(Command::Event(Event::Open(number))),
        Word::Close => Some(Command::Event(Event::Close(number))),
        Word::Ready => {
            if number > GREATEST_TASK {
                return None;
            }
            Some(Command::Event(Event::Ready(number as i32)))
        }
    }
}

#[tactic(auto, using(crate::proofs::Forms::input_says, crate::proofs::Forms::input_number, crate::proofs::Forms::input_long, crate::proofs::Forms::input_text, crate::proofs::Forms::input_word))]
fn read_input(alloc: Global, rest: &[u8]) -> Result<Command, Refusal>
    ensures says { IfOk result (λ c. Says (codes "line " ++ rest.now) c) }
    ensures refused { IfErr result (λ r. IsRefused (codes "line " ++ rest.now) r) }
{
    let Some((field, text)) = split_field(rest) else {
        return Err(Refusal::Fault(LineFault::Word));
    };
    let Some(connection) = read_number(field) else {
        return Err(Refusal::Fault(LineFault::Number));
    };
    if text.len() > LONGEST_LINE {
        return Err(Refusal::Fault(LineFault::Text));
    }
    match read_text(alloc, text) {
        Ok(Some(text)) => Ok(Command::Event(Event::Line(connection, text))),
        Ok(None) => Err(Refusal::Fault(LineFault::Text)),
        Err(error) => Err(Refusal::Memory(error)),
    }
}

fn read_text(alloc: Global, bytes: &[u8]) -> Result<Option<Text>, AllocError>
    ensures { IfOk result (λ o. MatchOption o (IsFalse (is_text bytes.now)) (λ t. IsTrue (is_text bytes.now) × (t ≡ bytes.now))) }
{
    let Ok(text) = std::str::from_utf8(bytes) else {
        return Ok(None);
    };
    let text = Text::new(String::from_str(alloc, text)?)?;
    if let Some(text) = &text {
        text.know();
    }
    Ok(text)
}
