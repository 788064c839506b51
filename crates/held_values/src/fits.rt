//! Whether a value can be held, beside the one before it.
ghost use Rattle.std.specs.Prelude.{IsTrue, option_map};
ghost use Rattle.held_values.specs.Wanted.{are_turns as are_turns_of, is_last as is_last_of, wanted_fits};

use crate::kinds::{has_items, is_counted, is_list, is_zero};
use crate::leaving::tells_leaving;
use crate::walk::{ends_fit, turns_fit};
use moo_value::value::Value;

/// Which values can be held next.
#[derive(Clone, Copy)]
pub enum Wanted {
    /// Any value.
    Any,
    /// A list.
    List,
    /// 0, of a handler that takes all codes.
    AllCodes,
    /// A list with an item at least, whose items a loop takes one by one.
    WalkedList,
    /// How many turns of the list before were begun.
    Turns,
    /// The number or the object of a loop's turn.
    Current,
    /// The last one of the loop, of the same kind as the one before and not below it.
    Last,
    /// How a body was left around which so many loops are.
    WhyLeft(usize),
}

/// Whether a value can be held, behind another one if one was held.
#[tactic(auto, using(crate::proofs::Telling::zero_kind))]
pub fn fits(wanted: Wanted, value: &Value, before: Option<&Value>) -> bool
    ensures tells { IsTrue result → IsTrue (wanted_fits wanted (option_map (λ v. v.now) before.entry) value.now) }
    ensures finds { IsTrue (wanted_fits wanted (option_map (λ v. v.now) before.entry) value.now) → IsTrue result }
{
    match wanted {
        Wanted::Any => true,
        Wanted::List => is_list(value),
        Wanted::AllCodes => is_zero(value),
        Wanted::WalkedList => has_items(value),
        Wanted::Turns => are_turns(before, value),
        Wanted::Current => is_counted(value),
        Wanted::Last => is_last(before, value),
        Wanted::WhyLeft(loops) => tells_leaving(loops, value),
    }
}

fn are_turns(list: Option<&Value>, value: &Value) -> bool
    ensures tells { IsTrue result → IsTrue (are_turns_of (option_map (λ v. v.now) list.entry) value.now) }
    ensures finds { IsTrue (are_turns_of (option_map (λ v. v.now) list.entry) value.now) → IsTrue result }
{
    match list {
        Some(list) => turns_fit(list, value),
        None => false,
    }
}

fn is_last(current: Option<&Value>, value: &Value) -> bool
    ensures tells { IsTrue result → IsTrue (is_last_of (option_map (λ v. v.now) current.entry) value.now) }
    ensures finds { IsTrue (is_last_of (option_map (λ v. v.now) current.entry) value.now) → IsTrue result }
{
    match current {
        Some(current) => ends_fit(current, value),
        None => false,
    }
}
