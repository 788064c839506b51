//! The parts of a line.
ghost use Rattle.std.specs.Prelude.{◌≡◌, ◌≤◌, [], ◌∷◌, ◌++◌, take, drop, length, option_map, IfOk, OnOk, IsTrue, None, string_bytes};
ghost use Rattle.spec_value.specs.Datum.{Text as Characters, is_text};
ghost use Rattle.spec_world.specs.Words.{words as words_of, after_first as after_first_of, expanded_front, spaced as spaced_of};
ghost use Rattle.spec_world.specs.Prepositions.{find_preposition as found};
ghost use Rattle.spec_world.specs.CommandLines.{line_parts as line_parts_of, parts_at as parts_at_of, parts_of_words as parts_of_words_of};
ghost use Rattle.player_commands.specs.CommandLinesMeant.{parts_of, with_front, is_sign};
ghost use Rattle.player_commands.specs.OneWord.{parts_of_word};

use crate::command_lines::behind::{first_part, spaces};
use crate::command_lines::one_word::is_word;
use crate::command_lines::words::words;
use moo_value::text::{Text, back};
use rules::verb_match::prepositions::find_preposition;
use std::alloc::{AllocError, Global};

/// The parts of a line.
#[derive(Drop)]
pub struct Parts {
    /// The first word.
    pub verb: Text,
    /// The words behind it.
    pub args: Vec<Text>,
    /// What was typed there.
    pub argstr: Text,
    /// The number of the set of the preposition among the words, 0 to 14, if there is one.
    pub preposition: Option<usize>,
    /// The words before the preposition, with one space between two; without one all of them.
    pub dobjstr: Text,
    /// The preposition's own words.
    pub prepstr: Text,
    /// The words behind it.
    pub iobjstr: Text,
}

/// What stands at the front of a line: a sign for a word, or none.
#[derive(Clone, Copy)]
enum Front {
    Say,
    Emote,
    Eval,
    Plain,
}

impl Front {
    #[tactic(auto, using(crate::proofs::Fronts::say_front, crate::proofs::Fronts::emote_front, crate::proofs::Fronts::eval_front, crate::proofs::Fronts::plain_front))]
    fn of(line: &[u8]) -> Front
        ensures spelled { expanded_front line.now ≡ with_front result line.now }
        ensures there { is_sign result → 1 ≤ length line.now }
    {
        if line.is_empty() {
            return Front::Plain;
        }
        match line[0] {
            b'"' => Front::Say,
            b':' => Front::Emote,
            b';' => Front::Eval,
            _ => Front::Plain,
        }
    }
}

/// The parts of a line; none where it has no words. Spaces at its front are dropped, and `"`, `:` and `;` there stand for `say `, `emote ` and `eval `.
#[tactic(auto, using(crate::proofs::OneWords::one_word))]
pub fn line_parts(alloc: Global, line: &Text) -> Result<Option<Parts>, AllocError>
    requires { IsTrue (is_text line.now) }
    ensures { IfOk result (λ o. option_map parts_of o ≡ line_parts_of line.now) }
{
    if is_word(line.as_str().as_bytes()) {
        let parts = word_parts(alloc, line.clone()?)?;
        return Ok(Some(parts));
    }
    parts_of_line(alloc, line.as_str())
}

// The parts of a line that is a word.
fn word_parts(alloc: Global, verb: Text) -> Result<Parts, AllocError>
    ensures { IfOk result (λ p. parts_of p ≡ parts_of_word verb) }
{
    let empty = Text::from_str(alloc, "")?;
    Ok(Parts {
        verb,
        args: Vec::new(alloc),
        argstr: empty.clone()?,
        preposition: None,
        dobjstr: empty.clone()?,
        prepstr: empty.clone()?,
        iobjstr: empty,
    })
}

// The parts of any line.
#[inline(never)]
#[tactic(auto, using(crate::proofs::Fronts::front_spelled, crate::proofs::Fronts::parts_are))]
fn parts_of_line(alloc: Global, line: &str) -> Result<Option<Parts>, AllocError>
    requires { IsTrue (is_text line.now) }
    ensures { IfOk result (λ o. option_map parts_of o ≡ line_parts_of line.now) }
{
    let rest = back(line, spaces(line.as_bytes()));
    let front = Front::of(rest.as_bytes());
    match front {
        Front::Plain => parts_spelled(alloc, rest),
        Front::Say => parts_behind(alloc, "say ", back(rest, 1)),
        Front::Emote => parts_behind(alloc, "emote ", back(rest, 1)),
        Front::Eval => parts_behind(alloc, "eval ", back(rest, 1)),
    }
}

// The parts of a line behind another one, whose sign they spell out together.
#[tactic(auto, using(crate::proofs::Fronts::nothing_behind))]
fn parts_behind(alloc: Global, first: &str, text: &str) -> Result<Option<Parts>, AllocError>
    requires first { IsTrue (is_text first.now) }
    requires text { IsTrue (is_text text.now) }
    ensures { IfOk result (λ o. option_map parts_of o ≡ parts_of_words_of (first.now ++ text.now) (words_of (first.now ++ text.now))) }
{
    let line = Text::joined(alloc, first, text, "")?;
    line.know();
    parts_spelled(alloc, line.as_str())
}

// The parts of a line whose sign is spelled out.
fn parts_spelled(alloc: Global, line: &str) -> Result<Option<Parts>, AllocError>
    requires { IsTrue (is_text line.now) }
    ensures { IfOk result (λ o. option_map parts_of o ≡ parts_of_words_of line.now (words_of line.now)) }
{
    let words = words(alloc, line)?;
    parts_of_words(alloc, line, words)
}

// The parts of a line with these words.
#[tactic(auto, using(crate::proofs::Fronts::no_parts, crate::proofs::Fronts::some_parts))]
fn parts_of_words(alloc: Global, line: &str, words: Vec<Text>) -> Result<Option<Parts>, AllocError>
    requires { IsTrue (is_text line.now) }
    ensures { IfOk result (λ o. option_map parts_of o ≡ parts_of_words_of line.now words.items) }
{
    if words.is_empty() {
        return Ok(None);
    }
    let mut args = words;
    let verb = args.remove(0);
    let argstr = after_first(alloc, line)?;
    Ok(Some(parts_at(alloc, verb, args, argstr)?))
}

// What was typed behind the first word.
fn after_first(alloc: Global, line: &str) -> Result<Text, AllocError>
    requires { IsTrue (is_text line.now) }
    ensures { IfOk result (λ t. t ≡ after_first_of line.now) }
{
    Text::from_str(alloc, back(line, first_part(line.as_bytes())))
}

// The parts of words.
fn parts_at(alloc: Global, verb: Text, args: Vec<Text>, argstr: Text) -> Result<Parts, AllocError>
    ensures { IfOk result (λ p. parts_of p ≡ parts_at_of verb args.items argstr (found args.items)) }
{
    let Some(found) = find_preposition(&args) else {
        let dobjstr = spaced(alloc, &args)?;
        let empty = Text::from_str(alloc, "")?;
        return Ok(Parts {
            verb,
            args,
            argstr,
            preposition: None,
            dobjstr,
            prepstr: empty.clone()?,
            iobjstr: empty,
        });
    };
    let dobjstr = spaced(alloc, first_words(&args, found.start))?;
    let others = other_words(&args, found.start);
    let prepstr = spaced(alloc, first_words(others, found.size))?;
    let iobjstr = spaced(alloc, other_words(others, found.size))?;
    Ok(Parts {
        verb,
        args,
        argstr,
        preposition: Some(found.set),
        dobjstr,
        prepstr,
        iobjstr,
    })
}

// So many words at the front, or all of them.
fn first_words(words: &[Text], count: usize) -> &[Text]
    ensures { result.now ≡ take count words.now }
{
    &words[..count.min(words.len())]
}

// Those behind them.
fn other_words(words: &[Text], count: usize) -> &[Text]
    ensures { result.now ≡ drop count words.now }
{
    &words[count.min(words.len())..]
}

// Words with one space between two.
fn spaced(alloc: Global, words: &[Text]) -> Result<Text, AllocError>
    ensures { IfOk result (λ t. t ≡ spaced_of words.now) }
{
    let Some((first, others)) = words.split_first() else {
        return Text::from_str(alloc, "");
    };
    let mut text = String::new(alloc);
    first.know();
    text.push_str(first.as_str())?;
    push_spaced(&mut text, others)?;
    Text::from_string(text)
}

// Each word behind a space.
fn push_spaced(text: &mut String, words: &[Text]) -> Result<(), AllocError>
    requires { IsTrue (is_text (string_bytes text.old)) }
    ensures allowed { OnOk result (IsTrue (is_text (string_bytes text.new))) }
    ensures pushed { OnOk result (spaced_of (string_bytes text.old ∷ words.now) ≡ string_bytes text.new) }
{
    for word in words {
        push_behind_space(text, word)?;
    }
    Ok(())
}

// One word behind a space.
#[tactic(auto, using(crate::proofs::Fronts::grown))]
fn push_behind_space(text: &mut String, word: &Text) -> Result<(), AllocError>
    requires { IsTrue (is_text (string_bytes text.old)) }
    ensures allowed { OnOk result (IsTrue (is_text (string_bytes text.new))) }
    ensures pushed { OnOk result (string_bytes text.new ≡ (string_bytes text.old ++ 32 ∷ []) ++ word.now) }
{
    word.know();
    text.push_str(" ")?;
    text.push_str(word.as_str())?;
    Ok(())
}
