//! Instructions of loops.
ghost use Rattle.std.specs.Prelude.{◌≡◌, ◌<◌, ◌+◌, ◌^◌, ◌≤ℤ◌, ◌∷◌, [], ℕ, pos, length, slice_get, IfOk};
ghost use Rattle.spec_value.specs.Datum.{Text as TextOf, of_list, list as list_of};
ghost use Rattle.spec_world.specs.World.{Call as CallOf};
ghost use Rattle.spec_moo.specs.Effects.Loops.{item_turn, list_turn, first_turn, later_turn, are_bounds};
ghost use Rattle.moo_value.specs.Errors.{code_of};
ghost use Rattle.moo_code.specs.Instruction.{first_item as first_item_of, next_item as next_item_of, first_of_range as first_of_range_of, next_of_range as next_of_range_of, skipped};
ghost use Rattle.moo_task.specs.Shown.{Around, Names, shown, performs_of, fails_of};
ghost use Rattle.moo_task.specs.Turns.{turn_meant, turn_of};

use crate::moo_machine::call::Call;
use crate::moo_machine::verb::{Did, State};
use moo_arith::index::natural;
use moo_value::error::MooError;
use moo_value::value::{Shown, Value};
use std::alloc::AllocError;

/// A turn of a loop that is to begin: the value of its variable, and the two values that the loop then holds.
#[derive(Drop)]
pub struct Turn {
    pub value: Value,
    pub first: Value,
    pub second: Value,
}

// An item of a list.
fn item(items: &[Value], place: usize) -> Result<Option<Value>, AllocError>
    ensures { IfOk result (λ o. o ≡ slice_get items.now place) }
{
    match items.get(place) {
        Some(value) => Ok(Some(value.clone()?)),
        None => Ok(None),
    }
}

// The turn after so many over a list. No list has more items than there are integers to count them: that would be want of memory.
#[tactic(auto, using(crate::proofs::Turning::item_got))]
fn turn_over(items: &[Value], list: &Value, begun: i32) -> Result<Option<Turn>, AllocError>
    requires list { list.now ≡ list_of (of_list items.now) }
    requires begun { pos 0 ≤ℤ begun }
    ensures { IfOk result (λ t. (k : ℕ) → begun ≡ pos k → turn_meant t ≡ item_turn (of_list items.now) k) }
{
    let Some(value) = item(items, natural(begun))? else {
        return Ok(None);
    };
    let Some(count) = begun.checked_add(1) else {
        return Err(AllocError);
    };
    let first = list.clone()?;
    Ok(Some(Turn {
        value,
        first,
        second: Value::integer(count),
    }))
}

// The turn over a list after those that were begun, where they are a count.
#[tactic(auto, using(crate::proofs::Turning::counted_turn, crate::proofs::Turning::no_turn))]
fn next_turn(items: &[Value], list: &Value, begun: &Value) -> Result<Option<Turn>, AllocError>
    requires { list.now ≡ list_of (of_list items.now) }
    ensures { IfOk result (λ t. turn_meant t ≡ list_turn (list_of (of_list items.now) ∷ begun.now ∷ [])) }
{
    match begun.shown() {
        Shown::Integer(begun) => {
            if begun < 0 {
                return Ok(None);
            }
            let turn = turn_over(items, list, begun)?;
            Ok(turn)
        }
        _ => Ok(None),
    }
}

// The first turn over a range of integers or objects.
fn turn_in(first: &Value, last: &Value) -> Option<Turn>
    ensures { turn_meant result ≡ first_turn (first.now ∷ last.now ∷ []) }
{
    match (first.shown(), last.shown()) {
        (Shown::Integer(a), Shown::Integer(b)) if a <= b => Some(Turn {
            value: Value::integer(a),
            first: Value::integer(a),
            second: Value::integer(b),
        }),
        (Shown::Object(a), Shown::Object(b)) if a <= b => Some(Turn {
            value: Value::object(a),
            first: Value::object(a),
            second: Value::object(b),
        }),
        _ => None,
    }
}

// The turn after the one that a range holds.
fn turn_after(held: &Value, last: &Value) -> Option<Turn>
    ensures { turn_meant result ≡ later_turn (held.now ∷ last.now ∷ []) }
{
    match (held.shown(), last.shown()) {
        (Shown::Integer(a), Shown::Integer(b)) if a < b => Some(Turn {
            value: Value::integer(a + 1),
            first: Value::integer(a + 1),
            second: Value::integer(b),
        }),
        (Shown::Object(a), Shown::Object(b)) if a < b => Some(Turn {
            value: Value::object(a + 1),
            first: Value::object(a + 1),
            second: Value::object(b),
        }),
        _ => None,
    }
}

// Whether both are integers, or both are objects.
fn bound_a_range(first: &Value, last: &Value) -> bool
    ensures { result ≡ are_bounds (first.now ∷ last.now ∷ []) }
{
    matches!(
        (first.shown(), last.shown()),
        (Shown::Integer(_), Shown::Integer(_)) | (Shown::Object(_), Shown::Object(_))
    )
}

#[tactic(auto, using(crate::proofs::Next::next_place, crate::proofs::InSlots::slot_is_given), unfolding(moo_code::specs::Machine::does, moo_code::specs::Performing::performed))]
impl State {
    /// An error of a `for` or a `fork`: it is raised by the d bit, else the statement is skipped.
    pub fn skips(&mut self, call: &Call, end: usize, error: MooError) -> Did
        ensures { (a : Around) → fails_of a call.now skipped end (code_of error) self.old ≡ shown a call.now result self.new }
    {
        if call.debug {
            return Did::Raised(error);
        }
        self.place = end;
        Did::Went
    }

    // A turn begins at the body, or the loop ends.
    fn begins_turn(
        &mut self,
        slot: usize,
        turn: Option<Turn>,
        body: usize,
        end: usize,
    ) -> Result<Did, AllocError>
        requires { slot < length self.old.slots.items }
        ensures { IfOk result (λ d. (a : Around) (c : CallOf) (x : TextOf) (n : ℕ) (to : ℕ → ℕ) → Names a slot x → to n ≡ body → to 0 ≡ end
            → turn_of a c x n to (turn_meant turn) self.old ≡ shown a c d self.new) }
    {
        let Some(
            Turn {
                value,
                first,
                second,
            },
        ) = turn
        else {
            self.place = end;
            return Ok(Did::Went);
        };
        if self.ticks == 0 {
            return Ok(Did::RanOut);
        }
        self.ticks -= 1;
        self.operands.push(first)?;
        self.operands.push(second)?;
        self.slots[slot] = Some(value);
        self.place = body;
        Ok(Did::Went)
    }

    /// A loop over a list begins, or ends at once.
    pub fn first_item(&mut self, call: &Call, slot: usize, end: usize) -> Result<Did, AllocError>
        requires place { self.old.place + 1 < 2 ^ 64 }
        requires slot { slot < length self.old.slots.items }
        ensures { IfOk result (λ d. (a : Around) (x : TextOf) → Names a slot x → performs_of a call.now (first_item_of x) ((0, end) ∷ []) self.old ≡ shown a call.now d self.new) }
    {
        let Some(list) = self.operands.pop() else {
            return Ok(Did::LacksOperand);
        };
        let Shown::List(items) = list.shown() else {
            return Ok(self.skips(call, end, MooError::TypeMismatch));
        };
        let turn = turn_over(items, &list, 0)?;
        let body = self.place + 1;
        let did = self.begins_turn(slot, turn, body, end)?;
        Ok(did)
    }

    /// A loop over a list goes on with its next item, or ends.
    pub fn next_item(&mut self, call: &Call, slot: usize, body: usize) -> Result<Did, AllocError>
        requires place { self.old.place + 1 < 2 ^ 64 }
        requires slot { slot < length self.old.slots.items }
        ensures { IfOk result (λ d. (a : Around) (x : TextOf) → Names a slot x → performs_of a call.now (next_item_of x) ((2, body) ∷ []) self.old ≡ shown a call.now d self.new) }
    {
        let Some(begun) = self.operands.pop() else {
            return Ok(Did::LacksOperand);
        };
        let Some(list) = self.operands.pop() else {
            return Ok(Did::LacksOperand);
        };
        let end = self.place + 1;
        let Shown::List(items) = list.shown() else {
            return Ok(self.skips(call, end, MooError::TypeMismatch));
        };
        let turn = next_turn(items, &list, &begun)?;
        let did = self.begins_turn(slot, turn, body, end)?;
        Ok(did)
    }

    /// A loop over a range begins, or ends at once.
    pub fn first_of_range(
        &mut self,
        call: &Call,
        slot: usize,
        end: usize,
    ) -> Result<Did, AllocError>
        requires place { self.old.place + 1 < 2 ^ 64 }
        requires slot { slot < length self.old.slots.items }
        ensures { IfOk result (λ d. (a : Around) (x : TextOf) → Names a slot x → performs_of a call.now (first_of_range_of x) ((0, end) ∷ []) self.old ≡ shown a call.now d self.new) }
    {
        let Some(last) = self.operands.pop() else {
            return Ok(Did::LacksOperand);
        };
        let Some(first) = self.operands.pop() else {
            return Ok(Did::LacksOperand);
        };
        let bounds = bound_a_range(&first, &last);
        if bounds {
            let turn = turn_in(&first, &last);
            let body = self.place + 1;
            let did = self.begins_turn(slot, turn, body, end)?;
            return Ok(did);
        }
        Ok(self.skips(call, end, MooError::TypeMismatch))
    }

    /// A loop over a range goes on with what is next in it, or ends.
    pub fn next_of_range(
        &mut self,
        call: &Call,
        slot: usize,
        body: usize,
    ) -> Result<Did, AllocError>
        requires place { self.old.place + 1 < 2 ^ 64 }
        requires slot { slot < length self.old.slots.items }
        ensures { IfOk result (λ d. (a : Around) (x : TextOf) → Names a slot x → performs_of a call.now (next_of_range_of x) ((3, body) ∷ []) self.old ≡ shown a call.now d self.new) }
    {
        let Some(last) = self.operands.pop() else {
            return Ok(Did::LacksOperand);
        };
        let Some(held) = self.operands.pop() else {
            return Ok(Did::LacksOperand);
        };
        let end = self.place + 1;
        let bounds = bound_a_range(&held, &last);
        if bounds {
            let turn = turn_after(&held, &last);
            let did = self.begins_turn(slot, turn, body, end)?;
            return Ok(did);
        }
        Ok(self.skips(call, end, MooError::TypeMismatch))
    }
}
