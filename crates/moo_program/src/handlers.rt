//! The handlers that a place stands in.
ghost use Rattle.std.specs.Prelude.{◌≡◌, ◌+◌, ◌++◌, [], List, map, take, drop, MatchOption};
ghost use Rattle.spec_value.specs.Datum.{Text as TextValue};
ghost use Rattle.moo_code.specs.Machine.{covers as covers_of, handlers_at};
ghost use Rattle.moo_program.specs.Meaning.{handler_meant};

use crate::instruction::Handler;

/// Of so many handlers, without the first ones, the innermost one that a place stands in.
pub fn handler_from(handlers: &[Handler], place: usize, from: usize) -> Option<usize>
    ensures { (names : List TextValue) → let all = map (handler_meant names) handlers.now in MatchOption result (handlers_at (drop from all) place ≡ []) (λ k. handlers_at (drop from all) place ≡ take 1 (drop k all) ++ handlers_at (drop (k + 1) all) place) }
{
    for i in from..handlers.len() {
        if covers(&handlers[i], place) {
            return Some(i);
        }
    }
    None
}

fn covers(handler: &Handler, place: usize) -> bool
    ensures { (names : List TextValue) → result ≡ covers_of place (handler_meant names handler.now) }
{
    handler.first as usize <= place && place < handler.past as usize
}
