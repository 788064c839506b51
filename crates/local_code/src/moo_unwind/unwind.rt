//! A leaving on its way out of the parts of a verb.
ghost use Rattle.std.specs.Prelude.{◌≡◌, ◌≤◌, length, map, IfOk, List, [], ◌∷◌, if◌then◌else◌};
ghost use Rattle.spec_value.specs.Datum.{Text as TextOf};
ghost use Rattle.spec_world.specs.World.{Call as CallOf};
ghost use Rattle.spec_moo.specs.Scene.{Scene};
ghost use Rattle.spec_moo.specs.Leaving.{Leaving as LeavingOf};
ghost use Rattle.moo_code.specs.Instruction.{Handler as HandlerOf};
ghost use Rattle.moo_code.specs.Layout.{handlers_of};
ghost use Rattle.moo_code.specs.Machine.{Step, covers as covers_of, handlers_here};
ghost use Rattle.moo_code.specs.Names.{names_of};
ghost use Rattle.moo_program.specs.Meaning.{handler_meant};
ghost use Rattle.moo_task.specs.Meant.{leaving_meant};
ghost use Rattle.moo_task.specs.Shown.{Around, kept};
ghost use Rattle.local_code.specs.Taking.{CatchWithin, HandlersWithin};
ghost use Rattle.local_code.specs.Offers.{offered, offer_shown, UnlessPassed};

use crate::moo_unwind::offer::{Offer, offer_to};
use moo_program::instruction::Handler;
use moo_task::moo_machine::leaving::Leaving;
use moo_task::moo_machine::verb::State;
use std::alloc::{AllocError, Global};

/// Offers a leaving to the handlers around the place of a verb, the innermost first: one of them takes it, and the verb goes on where the state
/// says; or it leaves the verb, which then is as it was.
pub fn leave(
    alloc: Global,
    state: &mut State,
    handlers: &[Handler],
    leaving: Leaving,
) -> Result<Offer, AllocError>
    requires { HandlersWithin (length state.old.slots.items) handlers.now }
    ensures shown { IfOk result (λ o. (a : Around) (c : CallOf) (out : Scene → LeavingOf → Step)
        → length state.old.slots.items ≤ length (names_of a.program) → map (handler_meant (names_of a.program)) handlers.now ≡ handlers_of a.program
        → offered a c out (handlers_here (kept a c state.old)) (leaving_meant leaving) state.old ≡ offer_shown a c out [] o state.new) }
    ensures same { IfOk result (λ o. UnlessPassed o state.old state.new) }
{
    let mut left = leaving;
    for handler in handlers {
        let offered = offer_around(alloc, state, handler, left)?;
        match offered {
            Offer::Passed(passed) => left = passed,
            Offer::Taken => return Ok(Offer::Taken),
            Offer::LacksOperand => return Ok(Offer::LacksOperand),
        }
    }
    Ok(Offer::Passed(left))
}

// Whether a place is in the part that a handler watches.
fn covers(handler: &Handler, place: usize) -> bool
    ensures { (names : List TextOf) → result ≡ covers_of place (handler_meant names handler.now) }
{
    handler.first as usize <= place && place < handler.past as usize
}

// What a handler does with a leaving, if it is around the place.
fn offer_around(
    alloc: Global,
    state: &mut State,
    handler: &Handler,
    leaving: Leaving,
) -> Result<Offer, AllocError>
    requires { CatchWithin (length state.old.slots.items) handler.now.catch }
    ensures shown { IfOk result (λ o. (a : Around) (c : CallOf) (out : Scene → LeavingOf → Step) (hs : List HandlerOf)
        → length state.old.slots.items ≤ length (names_of a.program)
        → offered a c out
        (if covers_of state.old.place (handler_meant (names_of a.program) handler.now) then handler_meant (names_of a.program) handler.now ∷ hs else hs)
        (leaving_meant leaving) state.old
        ≡ offer_shown a c out hs o state.new) }
    ensures same { IfOk result (λ o. UnlessPassed o state.old state.new) }
{
    if !covers(handler, state.place) {
        return Ok(Offer::Passed(leaving));
    }
    let offered = offer_to(alloc, state, handler, leaving)?;
    Ok(offered)
}
