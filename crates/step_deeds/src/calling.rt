//! Calls of verbs that were found.
ghost use Rattle.std.specs.Prelude.{◌≡◌};
ghost use Rattle.spec_moo.specs.Calling.{verb_call};

use moo_task::moo_machine::call::Call;
use moo_value::text::Text;
use rules::inherit::verb::FoundVerb;

/// The call of a verb that was found by its word on an object, from the verb that runs: with the permissions of the found
/// verb's owner.
pub fn callee(call: &Call, object: i32, word: Text, found: &FoundVerb) -> Call
    ensures { result ≡ verb_call call.now object word found.now }
{
    let verb = found.verb();
    Call {
        this: object,
        caller: call.this,
        definer: found.definer(),
        programmer: verb.owner,
        verb: word,
        debug: verb.debug,
    }
}
