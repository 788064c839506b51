//! Verbs at their beginning.
ghost use Rattle.std.specs.Prelude.{◌≡◌, ◌<◌, ◌+◌, ◌++◌, ◌∷◌, [], None, Some, length, take, replicate, IfOk, OnOk, IsTrue};
ghost use Rattle.spec_value.specs.Datum.{Data, list, integer, object, text as text_of};
ghost use Rattle.moo_code.specs.Slots.{starting_slots as starting_slots_of};
ghost use Rattle.moo_task.specs.Frames.{kept_of, begun};

use crate::frame::Frame;
use crate::moo_machine::call::Call;
use crate::moo_machine::operands::Operands;
use crate::moo_machine::verb::State;
use crate::room::Room;
use crate::start::SharedStart;
use crate::variables::SharedVariables;
use moo_program::names::STARTING_NAMES;
use moo_program::program::Program;
use moo_value::text::Text;
use moo_value::value::{Shown, Value};
use std::alloc::AllocError;

/// A verb at its beginning, in this room, with these arguments and so many ticks.
#[inline(always)]
pub fn begin(
    room: Room,
    player: i32,
    start: SharedStart,
    call: Call,
    program: Program,
    arguments: Value,
    ticks: u32,
) -> Result<Frame, AllocError>
    ensures frame { IfOk result (λ f. (args : Data) → arguments ≡ list args → kept_of f ≡ begun player start call program args) }
    ensures shared { IfOk result (λ f. f.start ≡ start) }
    ensures ticks { IfOk result (λ f. f.state.ticks ≡ ticks) }
{
    let own = program.names().len();
    let Room {
        mut slots,
        mut operands,
        start: _,
        word: _,
    } = room;
    let_go(&mut operands);
    start_slots(&mut slots, player, &call, &start, arguments, own)?;
    Ok(Frame {
        call,
        start,
        program,
        further: SharedVariables::none(),
        state: State {
            place: 0,
            operands,
            slots,
            ticks,
        },
    })
}

// Lets go of the operands, of which there are mostly none.
#[tactic(auto, using(std::proofs::lemmas::List::nil_from_length))]
#[inline(always)]
fn let_go(operands: &mut Operands)
    ensures { operands.new ≡ [] }
{
    if operands.len() > 0 {
        operands.clear();
    }
}

// The starting variables by the order of their names, and then the program's own, unset. What stood in their places goes.
#[inline(always)]
fn start_slots(
    slots: &mut Vec<Option<Value>>,
    player: i32,
    call: &Call,
    start: &SharedStart,
    arguments: Value,
    own: usize,
) -> Result<(), AllocError>
    ensures { OnOk result ((args : Data) → arguments ≡ list args
        → slots.new.items ≡ starting_slots_of player call.now call.now.verb start.now args ++ replicate own None) }
{
    if slots.len() != STARTING_NAMES.len() {
        empty_places(slots, own)?;
    }
    put_first(slots.as_mut_slice(), player, call, start, arguments)?;
    if own > 0 {
        put_own(slots, own)?;
    }
    Ok(())
}

// Places for the starting variables, with room behind them for so many of the program's own.
#[cold]
#[inline(never)]
fn empty_places(slots: &mut Vec<Option<Value>>, own: usize) -> Result<(), AllocError>
    ensures { OnOk result (length slots.new.items ≡ 17) }
{
    slots.clear();
    slots.reserve(own.saturating_add(17))?;
    slots.push_reserved(None);
    slots.push_reserved(None);
    slots.push_reserved(None);
    slots.push_reserved(None);
    slots.push_reserved(None);
    slots.push_reserved(None);
    slots.push_reserved(None);
    slots.push_reserved(None);
    slots.push_reserved(None);
    slots.push_reserved(None);
    slots.push_reserved(None);
    slots.push_reserved(None);
    slots.push_reserved(None);
    slots.push_reserved(None);
    slots.push_reserved(None);
    slots.push_reserved(None);
    slots.push_reserved(None);
    Ok(())
}

// The program's own variables, unset.
#[tactic(auto, using(crate::proofs::Beginning::one_more))]
#[inline(never)]
fn put_own(slots: &mut Vec<Option<Value>>, own: usize) -> Result<(), AllocError>
    ensures { OnOk result (slots.new.items ≡ slots.old.items ++ replicate own None) }
{
    'own: for _name in 0..own {
        slots.push(None)?;
    }
    Ok(())
}

// The starting variables in their places.
#[inline(always)]
fn put_first(
    row: &mut [Option<Value>],
    player: i32,
    call: &Call,
    start: &SharedStart,
    arguments: Value,
) -> Result<(), AllocError>
    requires { length row.old ≡ 17 }
    ensures { OnOk result ((args : Data) → arguments ≡ list args → row.new ≡ starting_slots_of player call.now call.now.verb start.now args) }
{
    put(row, 0, arguments);
    put_text(row, 1, start.argstr())?;
    put_object(row, 2, call.caller);
    put_object(row, 3, start.dobj());
    put_text(row, 4, start.dobjstr())?;
    put_integer(row, 5, 3);
    put_integer(row, 6, 0);
    put_object(row, 7, start.iobj());
    put_text(row, 8, start.iobjstr())?;
    put_integer(row, 9, 4);
    put_integer(row, 10, 0);
    put_integer(row, 11, 1);
    put_object(row, 12, player);
    put_text(row, 13, start.prepstr())?;
    put_integer(row, 14, 2);
    put_object(row, 15, call.this);
    put_text(row, 16, &call.verb)?;
    Ok(())
}

// A variable gets a value.
#[tactic(auto, using(std::proofs::lemmas::List::take_more_set))]
#[inline(always)]
fn put(row: &mut [Option<Value>], place: usize, value: Value)
    requires { place < length row.old }
    ensures length { length row.new ≡ length row.old }
    ensures front { take (place + 1) row.new ≡ take place row.old ++ Some value ∷ [] }
{
    row[place] = Some(value);
}

// The same where it is rare.
#[cold]
#[inline(never)]
fn put_another(row: &mut [Option<Value>], place: usize, value: Value)
    requires { place < length row.old }
    ensures length { length row.new ≡ length row.old }
    ensures front { take (place + 1) row.new ≡ take place row.old ++ Some value ∷ [] }
{
    put(row, place, value);
}

// A variable gets an integer, unless it has it.
#[tactic(auto, using(crate::proofs::Beginning::there))]
#[inline(always)]
fn put_integer(row: &mut [Option<Value>], place: usize, number: i32)
    requires { place < length row.old }
    ensures length { length row.new ≡ length row.old }
    ensures front { take (place + 1) row.new ≡ take place row.old ++ Some (integer number) ∷ [] }
{
    if !has_integer(&row[place], number) {
        put_another(row, place, Value::integer(number));
    }
}

// A variable gets an object, unless it has it.
#[tactic(auto, using(crate::proofs::Beginning::there))]
#[inline(always)]
fn put_object(row: &mut [Option<Value>], place: usize, number: i32)
    requires { place < length row.old }
    ensures length { length row.new ≡ length row.old }
    ensures front { take (place + 1) row.new ≡ take place row.old ++ Some (object number) ∷ [] }
{
    if !has_object(&row[place], number) {
        put(row, place, Value::object(number));
    }
}

// A variable gets a text, unless it has it.
#[tactic(auto, using(crate::proofs::Beginning::there))]
#[inline(always)]
fn put_text(row: &mut [Option<Value>], place: usize, text: &Text) -> Result<(), AllocError>
    requires { place < length row.old }
    ensures length { OnOk result (length row.new ≡ length row.old) }
    ensures front { OnOk result (take (place + 1) row.new ≡ take place row.old ++ Some (text_of text.now) ∷ []) }
{
    if has_text(&row[place], text) {
        return Ok(());
    }
    let text = text.clone()?;
    put_another(row, place, Value::text(text));
    Ok(())
}

// Whether a variable has an integer.
#[inline(always)]
fn has_integer(variable: &Option<Value>, number: i32) -> bool
    ensures { IsTrue result → variable.now ≡ Some (integer number) }
{
    let Some(value) = variable else {
        return false;
    };
    match value.shown() {
        Shown::Integer(held) => held == number,
        _ => false,
    }
}

// Whether a variable has an object.
#[inline(always)]
fn has_object(variable: &Option<Value>, number: i32) -> bool
    ensures { IsTrue result → variable.now ≡ Some (object number) }
{
    let Some(value) = variable else {
        return false;
    };
    match value.shown() {
        Shown::Object(held) => held == number,
        _ => false,
    }
}

// Whether a variable has a text, if that is short.
#[inline(always)]
fn has_text(variable: &Option<Value>, text: &Text) -> bool
    ensures { IsTrue result → variable.now ≡ Some (text_of text.now) }
{
    let Some(value) = variable else {
        return false;
    };
    let Some(held) = value.as_text() else {
        return false;
    };
    is_short_same(held, text)
}

// So long texts are compared, so that a count need not change.
const SHORT: usize = 32;

// Whether two texts are the same, if they are short.
#[inline(always)]
pub(crate) fn is_short_same(a: &Text, b: &Text) -> bool
    ensures { IsTrue result → a.now ≡ b.now }
{
    if b.is_empty() {
        return are_empty(a, b);
    }
    b.len() <= SHORT && a.as_str() == b.as_str()
}

// Whether two texts have no characters.
#[tactic(auto, using(crate::proofs::Beginning::no_characters))]
#[inline(always)]
pub(crate) fn are_empty(a: &Text, b: &Text) -> bool
    ensures { IsTrue result → a.now ≡ b.now }
{
    a.is_empty() && b.is_empty()
}
