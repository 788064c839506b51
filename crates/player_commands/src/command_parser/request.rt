//! What a `.program` line asks for.
ghost use Rattle.std.specs.Prelude.{◌≡◌, ◌∷◌, [], ◌<◌, ◌+◌, take, drop, length, Some, None, IfOk, MatchOption};
ghost use Rattle.spec_world.specs.CommandLines.{request_of as request_in, cut_at_colon};
ghost use Rattle.player_commands.specs.Meanings.{request_of};

use moo_value::text::{Text, back, front};
use std::alloc::{AllocError, Global};

/// What a `.program` line asks for.
#[derive(Drop)]
pub enum Request {
    /// To give a verb its code: the text that names the object, and the verb's name.
    Verb(Text, Text),
    /// Something of another form than `.program object:verb`.
    OtherForm,
}

impl Request {
    /// What the words behind `.program` ask for. A verb's name may have colons, and an object's text has none.
    #[tactic(auto, using(crate::proofs::Requests::other_count, crate::proofs::Requests::just_one))]
    #[inline(never)]
    pub fn of(alloc: Global, args: &[Text]) -> Result<Request, AllocError>
        ensures { IfOk result (λ r. request_of r ≡ request_in args.now) }
    {
        if args.len() != 1 {
            return Ok(Request::OtherForm);
        }
        let request = Request::of_word(alloc, &args[0])?;
        Ok(request)
    }

    #[tactic(auto, using(crate::proofs::Requests::not_cut, crate::proofs::Requests::cut_there))]
    fn of_word(alloc: Global, word: &Text) -> Result<Request, AllocError>
        ensures { IfOk result (λ r. request_of r ≡ request_in (word.now ∷ [])) }
    {
        word.know();
        let text = word.as_str();
        let Some(place) = colon(text.as_bytes()) else {
            return Ok(Request::OtherForm);
        };
        let object = Text::from_str(alloc, front(text, place))?;
        let verb = Text::from_str(alloc, back(text, place + 1))?;
        Ok(Request::Verb(object, verb))
    }
}

// Where the first colon stands.
fn colon(text: &[u8]) -> Option<usize>
    ensures { MatchOption result (cut_at_colon text.now ≡ None)
        (λ k. (k < length text.now) × (cut_at_colon text.now ≡ Some (take k text.now, drop (k + 1) text.now))) }
{
    for (index, byte) in text.iter().enumerate() {
        if *byte == b':' {
            return Some(index);
        }
    }
    None
}
