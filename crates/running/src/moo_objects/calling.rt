//! Calls of verbs (Programmer's Manual, "Calling Built-in Functions and Other Verbs").
ghost use Rattle.std.specs.Prelude.{◌≡◌, ◌<◌, ◌+◌, ◌^◌, ◌∷◌, true, drop, codes, IfOk, OnOk, IfSome, IsTrue, None};
ghost use Rattle.spec_value.specs.Datum.{list, item, no_data, text as text_of, Data, Text as TextOf, same_text};
ghost use Rattle.spec_value.specs.Places.{length_of_list};
ghost use Rattle.local_code.specs.Arguments.{HasArgument};
ghost use Rattle.spec_world.specs.World.{World};
ghost use Rattle.spec_moo.specs.Scene.{Scene};
ghost use Rattle.spec_moo.specs.Calling.{verb_call};
ghost use Rattle.spec_moo.specs.Effect.{Effect, erring};
ghost use Rattle.moo_value.specs.Errors.{code_of};
ghost use Rattle.spec_moo.specs.Effects.Calls.{with_arguments, found_effect};
ghost use Rattle.moo_code.specs.Instruction.{call_verb as call_verb_of, call_function};
ghost use Rattle.moo_task.specs.Shown.{Around, here};
ghost use Rattle.rules.specs.Lines.{AreAgreeing};
ghost use Rattle.rules.specs.Calling.{call_effect};
ghost use Rattle.view.specs.Law.{Goes, Lasts, Tells};
ghost use Rattle.local_code.specs.Constants.{IsConstant};
ghost use Rattle.view.specs.Kin.{IsCalledAt};
ghost use Rattle.running.specs.Called.{items_of, running, effect_of, shown_called, weighed_effect, Calls, HasList, HasCall, IsAnswered, IsCalled, IsCalledWithOne, IsReply, IsReplyOf, IsVerbOf, callee_of, called_as};
ghost use Rattle.running.specs.Calls.{AreArguments};

use crate::moo_asking::functions::drop_one;
use local_code::moo_run::constant::{Constant, constant_of};
use local_code::moo_run::top::is_empty_list;
use moo_program::program::Program;
use moo_task::moo_machine::call::Call;
use moo_task::moo_machine::operands::Operands;
use moo_task::moo_machine::verb::{Did, State};
use moo_value::answer::{WEIGHT_LIMIT, limited};
use moo_value::error::MooError;
use moo_value::text::Text;
use moo_value::value::{Shown, Value};
use rules::access::calling::{called_verb, passed_verb};
use rules::inherit::verb::{FoundVerb, find_lent, find_verb};
use std::alloc::{AllocError, Global};
use step_deeds::calling::callee;
use view::law::View;
use view::verb::Verb;

/// What a call of a verb did.
#[derive(Drop)]
pub enum Called {
    /// No other verb is entered.
    Went(Did),
    /// A verb is entered that was found, with a list of arguments; the one that runs awaits its value.
    Entered(Call, FoundVerb, Value),
}

/// A call of a verb on an object, by its word.
#[inline(always)]
pub fn call_verb<V: View>(
    view: &mut V,
    call: &Call,
    state: &mut State,
) -> Result<Called, AllocError>
    requires place { state.old.place + 1 < 2 ^ 64 }
    requires home { V.holds view.old (V.home view.old) }
    requires well_formed { AreAgreeing V.holds V.now view.old }
    ensures lasts { Lasts V.holds V.home V.anchor view.old view.new result }
    ensures left { IfOk result (λ d. Goes V.holds V.now view.old view.new (Calls call_verb_of call.now state.old d state.new)) }
    ensures listed { IfOk result HasList }
    ensures well_formed { OnOk result (AreAgreeing V.holds V.now view.new) }
{
    let Some(arguments) = state.operands.pop() else {
        return Ok(Called::Went(Did::LacksOperand));
    };
    let Some(word) = state.operands.pop() else {
        return Ok(Called::Went(Did::LacksOperand));
    };
    let Some(object) = state.operands.pop() else {
        return Ok(Called::Went(Did::LacksOperand));
    };
    if state.ticks == 0 {
        return Ok(Called::Went(Did::RanOut));
    }
    state.ticks -= 1;
    let arguments = match weighed(arguments) {
        Ok(arguments) => arguments,
        Err(error) => return complains(call, state, error),
    };
    let found = called_verb(view, &object, &word)?;
    match found {
        Ok(found) => enters_on(call, state, &object, &word, found, arguments),
        Err(error) => complains(call, state, error),
    }
}

/// A call of `pass`: the verb of the running name, sought above its definer, for the same object.
pub fn pass<V: View>(view: &mut V, call: &Call, state: &mut State) -> Result<Called, AllocError>
    requires place { state.old.place + 1 < 2 ^ 64 }
    requires home { V.holds view.old (V.home view.old) }
    requires well_formed { AreAgreeing V.holds V.now view.old }
    ensures lasts { Lasts V.holds V.home V.anchor view.old view.new result }
    ensures left { IfOk result (λ d. Goes V.holds V.now view.old view.new (λ before after. (g : TextOf) → same_text g (codes "pass") ≡ true →
        Calls (call_function g) call.now state.old d state.new before after)) }
    ensures listed { IfOk result HasList }
    ensures well_formed { OnOk result (AreAgreeing V.holds V.now view.new) }
{
    let Some(arguments) = state.operands.pop() else {
        return Ok(Called::Went(Did::LacksOperand));
    };
    if state.ticks == 0 {
        return Ok(Called::Went(Did::RanOut));
    }
    state.ticks -= 1;
    let arguments = match weighed(arguments) {
        Ok(arguments) => arguments,
        Err(error) => return complains(call, state, error),
    };
    let found = passed_verb(view, call.definer, call.verb.as_str())?;
    match found {
        Some(found) => enters_above(call, found, arguments),
        None => complains(call, state, MooError::VerbNotFound),
    }
}

/// The call of a verb that `pass` found: of the running name, for the same object.
pub fn callee_above(call: &Call, found: &FoundVerb) -> Result<Call, AllocError>
    ensures { IfOk result (λ d. d ≡ verb_call call.now call.now.this call.now.verb found.now) }
{
    let word = call.verb.clone()?;
    Ok(callee(call, call.this, word, found))
}

// Arguments, if they are a list that weighs no more than a value may.
#[inline(always)]
fn weighed(arguments: Value) -> Result<Value, MooError>
    ensures weighs { (s : Scene) (f : Data → Effect) → with_arguments s f arguments ≡ weighed_effect s f result }
    ensures listed { IfOk result (λ v. v ≡ list (items_of v)) }
{
    match arguments.shown() {
        Shown::List(_) => limited(arguments),
        _ => Err(MooError::TypeMismatch),
    }
}

// An error of the call itself.
#[cold]
#[inline(never)]
fn complains(call: &Call, state: &mut State, error: MooError) -> Result<Called, AllocError>
    requires { state.old.place + 1 < 2 ^ 64 }
    ensures left { IfOk result (λ d. (a : Around) → effect_of a call.now (erring (here a state.old) (code_of error)) state.old ≡ shown_called a call.now d state.new) }
    ensures listed { IfOk result HasList }
{
    let did = state.answers(call, Err(error))?;
    Ok(Called::Went(did))
}

// A verb that was found on an object by a word is entered.
#[inline(always)]
fn enters_on(
    call: &Call,
    state: &mut State,
    object: &Value,
    word: &Value,
    found: FoundVerb,
    arguments: Value,
) -> Result<Called, AllocError>
    requires place { state.old.place + 1 < 2 ^ 64 }
    requires listed { arguments ≡ list (items_of arguments) }
    ensures left { IfOk result (λ d. (a : Around) → effect_of a call.now
        (call_effect (here a state.old) (running a call.now state.old) object.now word.now (items_of arguments) (Ok found)) state.old
        ≡ shown_called a call.now d state.new) }
    ensures listed { IfOk result HasList }
{
    word.know();
    match (object.shown(), word.shown()) {
        (Shown::Object(object), Shown::Text(_)) => {
            let word = word_of(word)?;
            let entered = callee(call, object, word, &found);
            Ok(Called::Entered(entered, found, arguments))
        }
        _ => complains(call, state, MooError::TypeMismatch),
    }
}

// The word of a call, shared with the value that is a text.
fn word_of(word: &Value) -> Result<Text, AllocError>
    ensures { IfOk result (λ t. word.now ≡ text_of t) }
{
    match word.as_text() {
        Some(text) => text.clone(),
        None => Err(AllocError),
    }
}

// A verb that was found above the definer is entered.
fn enters_above(call: &Call, found: FoundVerb, arguments: Value) -> Result<Called, AllocError>
    requires { arguments ≡ list (items_of arguments) }
    ensures left { IfOk result (λ d. (a : Around) (s : State) → effect_of a call.now
        (found_effect (here a s) (running a call.now s) call.now.this call.now.verb (items_of arguments) (Some found)) s
        ≡ shown_called a call.now d s) }
    ensures listed { IfOk result HasList }
{
    let entered = callee_above(call, &found)?;
    Ok(Called::Entered(entered, found, arguments))
}

/// Who runs a verb that is called, but for its word and its caller.
#[derive(Clone, Copy)]
pub struct Callee {
    /// The object on which it is called.
    pub this: i32,
    /// The object on which it was found.
    pub definer: i32,
    /// The object with whose permissions it runs.
    pub programmer: i32,
    /// Whether its errors are raised.
    pub debug: bool,
}

impl Callee {
    fn of(object: i32, definer: i32, verb: &Verb) -> Callee
        ensures { result ≡ callee_of object (record { definer = definer; verb = verb.now }) }
    {
        Callee {
            this: object,
            definer,
            programmer: verb.owner,
            debug: verb.debug,
        }
    }

    /// Its call by a word, from the verb that runs.
    #[inline(always)]
    pub fn called(self, call: &Call, word: Text) -> Call
        ensures { result ≡ called_as call.now word self }
    {
        Call {
            this: self.this,
            caller: call.this,
            definer: self.definer,
            programmer: self.programmer,
            verb: word,
            debug: self.debug,
        }
    }
}

/// Who runs the verb that is named by the two operands below the one on top, with its program, if one is found and a list of arguments is on top.
#[inline(always)]
pub fn called_by_three<V: View>(
    view: &mut V,
    operands: &Operands,
) -> Result<Option<(Callee, Program)>, AllocError>
    requires home { V.holds view.old (V.home view.old) }
    requires well_formed { AreAgreeing V.holds V.now view.old }
    ensures lasts { Lasts V.holds V.home V.anchor view.old view.new result }
    ensures held { IfOk result (λ o. IfSome o (λ d. HasCall operands.now)) }
    ensures left { IfOk result (λ o. Tells V.holds V.now view.old view.new (λ w. IfSome o (λ d. IsCalled w operands.now d.0 d.1))) }
{
    let Some([object, word, arguments]) = operands.top(3) else {
        return Ok(None);
    };
    if !are_arguments(arguments) {
        return Ok(None);
    }
    match (object.shown(), word.as_text()) {
        (Shown::Object(object), Some(word)) => verb_on(view, object, word),
        _ => Ok(None),
    }
}

/// Who runs the verb that a word names on an object, with its program, if one is found.
#[inline(always)]
pub fn verb_on<V: View>(
    view: &mut V,
    object: i32,
    word: &Text,
) -> Result<Option<(Callee, Program)>, AllocError>
    requires home { V.holds view.old (V.home view.old) }
    requires well_formed { AreAgreeing V.holds V.now view.old }
    ensures lasts { Lasts V.holds V.home V.anchor view.old view.new result }
    ensures left { IfOk result (λ o. Tells V.holds V.now view.old view.new (λ w. IfSome o (λ d. IsVerbOf w object word.now d.0 d.1))) }
{
    let reply = reply_on(view, object, word, false)?;
    match reply {
        Some(Reply::Runs(callee, program)) => Ok(Some((callee, program))),
        _ => Ok(None),
    }
}

/// What a call of a verb comes to.
#[derive(Drop)]
pub enum Reply {
    /// The verb only gives a value.
    Gives(Constant),
    /// It runs.
    Runs(Callee, Program),
}

/// What a call of the verb comes to that a word names on an object, if one is found. That it only gives a value is told where that is wanted and at once known.
#[inline(always)]
pub fn reply_on<V: View>(
    view: &mut V,
    object: i32,
    word: &Text,
    gives: bool,
) -> Result<Option<Reply>, AllocError>
    requires home { V.holds view.old (V.home view.old) }
    requires well_formed { AreAgreeing V.holds V.now view.old }
    ensures lasts { Lasts V.holds V.home V.anchor view.old view.new result }
    ensures left { IfOk result (λ o. IsAnswered V.holds V.now view.old view.new object word.now o) }
{
    let at_hand = reply_at_hand(view, object, word, gives)?;
    if let Some(reply) = at_hand {
        return Ok(Some(reply));
    }
    reply_sought(view, object, word, gives)
}

// The same of a verb that the view keeps at hand.
#[inline(always)]
fn reply_at_hand<V: View>(
    view: &V,
    object: i32,
    word: &Text,
    gives: bool,
) -> Result<Option<Reply>, AllocError>
    ensures { IfOk result (λ o. IfSome o (IsReply V.holds V.now view.now view.now object word.now)) }
{
    let Some((definer, verb)) = view.verb_at_hand(object, word) else {
        return Ok(None);
    };
    let reply = reply_of(object, definer, verb, gives)?;
    Ok(Some(reply))
}

// The same of any verb. One that can be lent is then kept at hand.
#[inline(never)]
fn reply_sought<V: View>(
    view: &mut V,
    object: i32,
    word: &Text,
    gives: bool,
) -> Result<Option<Reply>, AllocError>
    requires home { V.holds view.old (V.home view.old) }
    requires well_formed { AreAgreeing V.holds V.now view.old }
    ensures lasts { Lasts V.holds V.home V.anchor view.old view.new result }
    ensures left { IfOk result (λ o. IsAnswered V.holds V.now view.old view.new object word.now o) }
{
    let lent = reply_lent(view, object, word, gives)?;
    match lent {
        Some(lent) => {
            view.keep_verb(object, word, lent.definer, lent.place);
            Ok(Some(lent.reply))
        }
        None => reply_asked(view, object, word, gives),
    }
}

// What a call comes to of a verb that is lent, and where that stands.
#[derive(Drop)]
struct LentReply {
    reply: Reply,
    definer: i32,
    place: usize,
}

// The same of a verb that is at hand, with all objects up to it.
#[inline(always)]
fn reply_lent<V: View>(
    view: &V,
    object: i32,
    word: &Text,
    gives: bool,
) -> Result<Option<LentReply>, AllocError>
    requires home { V.holds view.now (V.home view.now) }
    requires well_formed { AreAgreeing V.holds V.now view.now }
    ensures reply { IfOk result (λ o. IfSome o (λ l. IsReply V.holds V.now view.now view.now object word.now l.reply)) }
    ensures place { IfOk result (λ o. IfSome o (λ l. (w : World) → V.holds view.now w → IsCalledAt (V.now view.now w) object word.now l.definer l.place)) }
{
    let Some(lent) = find_lent(view, object, word.as_str()) else {
        return Ok(None);
    };
    let reply = reply_of(object, lent.definer, lent.verb, gives)?;
    Ok(Some(LentReply {
        reply,
        definer: lent.definer,
        place: lent.place,
    }))
}

// The same of any verb, which is asked for.
#[inline(never)]
fn reply_asked<V: View>(
    view: &mut V,
    object: i32,
    word: &Text,
    gives: bool,
) -> Result<Option<Reply>, AllocError>
    requires home { V.holds view.old (V.home view.old) }
    requires well_formed { AreAgreeing V.holds V.now view.old }
    ensures lasts { Lasts V.holds V.home V.anchor view.old view.new result }
    ensures left { IfOk result (λ o. IsAnswered V.holds V.now view.old view.new object word.now o) }
{
    let found = find_verb(view, object, word.as_str())?;
    let Some(found) = found else {
        return Ok(None);
    };
    let reply = reply_of(object, found.definer(), found.verb(), gives)?;
    Ok(Some(reply))
}

// What a call on an object comes to of a verb that stands on an object.
#[inline(always)]
fn reply_of(object: i32, definer: i32, verb: &Verb, gives: bool) -> Result<Reply, AllocError>
    ensures { IfOk result (λ r. IsReplyOf r (callee_of object (record { definer = definer; verb = verb.now })) verb.now.program) }
{
    if gives {
        let constant = constant_at_hand(verb)?;
        if let Some(constant) = constant {
            return Ok(Reply::Gives(constant));
        }
    }
    let program = verb.program.whole()?;
    let callee = Callee::of(object, definer, verb);
    Ok(Reply::Runs(callee, program))
}

// What a verb gives that does nothing else, if its code is at hand.
#[inline(always)]
fn constant_at_hand(verb: &Verb) -> Result<Option<Constant>, AllocError>
    ensures { IfOk result (λ o. IfSome o (λ g. IsConstant verb.now.program g.value g.ticks)) }
{
    match verb.program.at_hand() {
        Some(program) => constant_of(program),
        None => Ok(None),
    }
}

/// Whether a value is a list of arguments that does not weigh too much.
#[inline(always)]
pub fn are_arguments(arguments: &Value) -> bool
    ensures { IsTrue result → AreArguments None arguments.now }
{
    match arguments.shown() {
        Shown::List(_) => arguments.weight() <= WEIGHT_LIMIT,
        _ => false,
    }
}

/// Who runs the verb that is named by the object and the word below an empty list, on top of which is its only argument, with its program, if one is found and
/// the argument is light enough.
#[inline(always)]
pub fn called_by_four<V: View>(
    view: &mut V,
    operands: &Operands,
) -> Result<Option<(Callee, Program)>, AllocError>
    requires home { V.holds view.old (V.home view.old) }
    requires well_formed { AreAgreeing V.holds V.now view.old }
    ensures lasts { Lasts V.holds V.home V.anchor view.old view.new result }
    ensures held { IfOk result (λ o. IfSome o (λ d. HasArgument operands.now)) }
    ensures left { IfOk result (λ o. Tells V.holds V.now view.old view.new (λ w. IfSome o (λ d. IsCalledWithOne w operands.now d.0 d.1))) }
{
    let Some([object, word, arguments, argument]) = operands.top(4) else {
        return Ok(None);
    };
    if argument.weight() >= WEIGHT_LIMIT || !is_empty_list(arguments) {
        return Ok(None);
    }
    match (object.shown(), word.as_text()) {
        (Shown::Object(object), Some(word)) => verb_on(view, object, word),
        _ => Ok(None),
    }
}

/// Takes the word and the only argument of a call, with the empty list between them and the object below.
#[inline(always)]
pub fn take_argument(operands: &mut Operands) -> (Text, Value)
    requires { HasArgument operands.old }
    ensures taken { operands.old ≡ result.1 ∷ list no_data ∷ text_of result.0 ∷ drop 3 operands.old }
    ensures rest { operands.new ≡ drop 4 operands.old }
{
    let Some(argument) = operands.pop() else {
        unreachable!();
    };
    drop_one(operands);
    let Some(word) = operands.pop() else {
        unreachable!();
    };
    drop_one(operands);
    match word.into_text() {
        Ok(word) => (word, argument),
        Err(_) => unreachable!(),
    }
}

/// A list of one item, in the place of one that is spare, if that has one item too.
#[inline(always)]
pub fn list_of_one(alloc: Global, spare: Option<Value>, value: Value) -> Result<Value, AllocError>
    ensures { IfOk result (λ v. v ≡ list (item value no_data)) }
{
    let Some(held) = spare else {
        return new_list(alloc, value);
    };
    if has_one_item(&held) {
        return with_instead(held, value);
    }
    new_list(alloc, value)
}

// Whether a value is a list of one item.
#[inline(always)]
fn has_one_item(value: &Value) -> bool
    ensures { IsTrue result → length_of_list value.now ≡ 1 }
{
    match value.shown() {
        Shown::List(items) => items.len() == 1,
        _ => false,
    }
}

// A list of one item gets another one in the place of that.
#[tactic(auto, using(crate::proofs::Entering::one_instead))]
#[inline(always)]
fn with_instead(held: Value, value: Value) -> Result<Value, AllocError>
    requires { length_of_list held ≡ 1 }
    ensures { IfOk result (λ v. v ≡ list (item value no_data)) }
{
    let mut held = held;
    let _before = held.replace(0, value)?;
    Ok(held)
}

#[inline(never)]
fn new_list(alloc: Global, value: Value) -> Result<Value, AllocError>
    ensures { IfOk result (λ v. v ≡ list (item value no_data)) }
{
    let mut list = Value::list(Vec::new(alloc))?;
    list.push(value)?;
    Ok(list)
}

/// Takes the word and the arguments of a call, with the object below them.
#[inline(always)]
pub fn take_call(operands: &mut Operands) -> (Text, Value)
    requires { HasCall operands.old }
    ensures taken { operands.old ≡ result.1 ∷ text_of result.0 ∷ drop 2 operands.old }
    ensures rest { operands.new ≡ drop 3 operands.old }
{
    let Some(arguments) = operands.pop() else {
        unreachable!();
    };
    let Some(word) = operands.pop() else {
        unreachable!();
    };
    drop_one(operands);
    match word.into_text() {
        Ok(word) => (word, arguments),
        Err(_) => unreachable!(),
    }
}
