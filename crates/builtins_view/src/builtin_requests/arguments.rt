//! Arguments whose sorts were checked, one by one.
ghost use Rattle.std.specs.Prelude.{◌≡◌, [], ◌∷◌, IsTrue, IfOk};
ghost use Rattle.spec_value.specs.Datum.{integer as integer_of, object as object_of, text as text_of, list as list_of, of_list};
ghost use Rattle.spec_moo.specs.Natives.Rows.{an_integer, an_object, a_text, any_value, a_verb, text_lines, owner_and_bits as wanted_owner_and_bits, owner_bits_names, verb_specifier, fits};
ghost use Rattle.builtin_table.specs.Sorts.{Fit};
ghost use Rattle.builtins_view.specs.BuiltinsChangeListed.{owner_and_bits as owner_and_bits_of, info_given, words_given};

use crate::builtins_change::made::Info;
use crate::builtins_change::specifier::Words;
use moo_value::items::copied;
use moo_value::text::Text;
use moo_value::value::{Shown, Value};
use std::alloc::{AllocError, Global};

/// No argument.
pub fn nothing(arguments: &[Value])
    requires { Fit [] [] arguments.now }
    ensures { arguments.now ≡ [] }
{
    let _arguments = arguments;
}

/// An object.
pub fn object(arguments: &[Value]) -> i32
    requires { Fit (an_object ∷ []) [] arguments.now }
    ensures { arguments.now ≡ object_of result ∷ [] }
{
    let [object] = arguments else { unreachable!() };
    as_object(object)
}

/// Two objects.
pub fn two_objects(arguments: &[Value]) -> (i32, i32)
    requires { Fit (an_object ∷ an_object ∷ []) [] arguments.now }
    ensures { arguments.now ≡ object_of result.0 ∷ object_of result.1 ∷ [] }
{
    let [first, second] = arguments else {
        unreachable!()
    };
    (as_object(first), as_object(second))
}

/// An integer.
pub fn integer(arguments: &[Value]) -> i32
    requires { Fit (an_integer ∷ []) [] arguments.now }
    ensures { arguments.now ≡ integer_of result ∷ [] }
{
    let [integer] = arguments else { unreachable!() };
    as_integer(integer)
}

/// A text.
pub fn text(alloc: Global, arguments: &[Value]) -> Result<Text, AllocError>
    requires { Fit (a_text ∷ []) [] arguments.now }
    ensures { IfOk result (λ t. arguments.now ≡ text_of t ∷ []) }
{
    let [text] = arguments else { unreachable!() };
    let text = as_text(alloc, text)?;
    Ok(text)
}

/// An object and a text.
pub fn object_and_text(alloc: Global, arguments: &[Value]) -> Result<(i32, Text), AllocError>
    requires { Fit (an_object ∷ a_text ∷ []) [] arguments.now }
    ensures { IfOk result (λ r. arguments.now ≡ object_of r.0 ∷ text_of r.1 ∷ []) }
{
    let [object, text] = arguments else {
        unreachable!()
    };
    let text = as_text(alloc, text)?;
    Ok((as_object(object), text))
}

/// An object and a value.
pub fn object_and_value(arguments: &[Value]) -> Result<(i32, Value), AllocError>
    requires { Fit (an_object ∷ any_value ∷ []) [] arguments.now }
    ensures { IfOk result (λ r. arguments.now ≡ object_of r.0 ∷ r.1 ∷ []) }
{
    let [object, value] = arguments else {
        unreachable!()
    };
    let value = value.clone()?;
    Ok((as_object(object), value))
}

/// An object, and what tells one of its verbs.
pub fn object_and_verb(arguments: &[Value]) -> Result<(i32, Value), AllocError>
    requires { Fit (an_object ∷ a_verb ∷ []) [] arguments.now }
    ensures { IfOk result (λ r. arguments.now ≡ object_of r.0 ∷ r.1 ∷ []) }
{
    let [object, which] = arguments else {
        unreachable!()
    };
    let which = which.clone()?;
    Ok((as_object(object), which))
}

/// An object, a text, and an owner with bits.
pub fn object_text_and_bits(
    alloc: Global,
    arguments: &[Value],
) -> Result<(i32, Text, i32, Text), AllocError>
    requires { Fit (an_object ∷ a_text ∷ wanted_owner_and_bits ∷ []) [] arguments.now }
    ensures { IfOk result (λ r. arguments.now ≡ object_of r.0 ∷ text_of r.1 ∷ owner_and_bits_of r.2 r.3 ∷ []) }
{
    let [object, text, more] = arguments else {
        unreachable!()
    };
    let text = as_text(alloc, text)?;
    let (owner, bits) = as_owner_and_bits(alloc, more)?;
    Ok((as_object(object), text, owner, bits))
}

/// An object, a text, a value, and an owner with bits.
pub fn object_text_value_and_bits(
    alloc: Global,
    arguments: &[Value],
) -> Result<(i32, Text, Value, i32, Text), AllocError>
    requires { Fit (an_object ∷ a_text ∷ any_value ∷ wanted_owner_and_bits ∷ []) [] arguments.now }
    ensures { IfOk result (λ r. arguments.now ≡ object_of r.0 ∷ text_of r.1 ∷ r.2 ∷ owner_and_bits_of r.3 r.4 ∷ []) }
{
    let [object, text, value, more] = arguments else {
        unreachable!()
    };
    let text = as_text(alloc, text)?;
    let value = value.clone()?;
    let (owner, bits) = as_owner_and_bits(alloc, more)?;
    Ok((as_object(object), text, value, owner, bits))
}

/// An object, what tells one of its verbs, and an owner, bits and names.
pub fn object_verb_and_info(
    alloc: Global,
    arguments: &[Value],
) -> Result<(i32, Value, Info), AllocError>
    requires { Fit (an_object ∷ a_verb ∷ owner_bits_names ∷ []) [] arguments.now }
    ensures { IfOk result (λ r. arguments.now ≡ object_of r.0 ∷ r.1 ∷ info_given r.2 ∷ []) }
{
    let [object, which, info] = arguments else {
        unreachable!()
    };
    let which = which.clone()?;
    let info = as_info(alloc, info)?;
    Ok((as_object(object), which, info))
}

/// An object, what tells one of its verbs, and a specifier's words.
pub fn object_verb_and_words(
    alloc: Global,
    arguments: &[Value],
) -> Result<(i32, Value, Words), AllocError>
    requires { Fit (an_object ∷ a_verb ∷ verb_specifier ∷ []) [] arguments.now }
    ensures { IfOk result (λ r. arguments.now ≡ object_of r.0 ∷ r.1 ∷ words_given r.2 ∷ []) }
{
    let [object, which, words] = arguments else {
        unreachable!()
    };
    let which = which.clone()?;
    let words = as_words(alloc, words)?;
    Ok((as_object(object), which, words))
}

/// An object, an owner, bits and names, and a specifier's words.
pub fn object_info_and_words(
    alloc: Global,
    arguments: &[Value],
) -> Result<(i32, Info, Words), AllocError>
    requires { Fit (an_object ∷ owner_bits_names ∷ verb_specifier ∷ []) [] arguments.now }
    ensures { IfOk result (λ r. arguments.now ≡ object_of r.0 ∷ info_given r.1 ∷ words_given r.2 ∷ []) }
{
    let [object, info, words] = arguments else {
        unreachable!()
    };
    let info = as_info(alloc, info)?;
    let words = as_words(alloc, words)?;
    Ok((as_object(object), info, words))
}

/// An object, what tells one of its verbs, and lines.
pub fn object_verb_and_lines(
    alloc: Global,
    arguments: &[Value],
) -> Result<(i32, Value, Vec<Value>), AllocError>
    requires { Fit (an_object ∷ a_verb ∷ text_lines ∷ []) [] arguments.now }
    ensures { IfOk result (λ r. arguments.now ≡ object_of r.0 ∷ r.1 ∷ list_of (of_list r.2.items) ∷ []) }
{
    let [object, which, lines] = arguments else {
        unreachable!()
    };
    let which = which.clone()?;
    let lines = as_items(alloc, lines)?;
    Ok((as_object(object), which, lines))
}

/// The number of an object.
pub fn as_object(value: &Value) -> i32
    requires { IsTrue (fits an_object value.now) }
    ensures { value.now ≡ object_of result }
{
    match value.shown() {
        Shown::Object(number) => number,
        _ => unreachable!(),
    }
}

/// The number that an integer is.
pub fn as_integer(value: &Value) -> i32
    requires { IsTrue (fits an_integer value.now) }
    ensures { value.now ≡ integer_of result }
{
    match value.shown() {
        Shown::Integer(number) => number,
        _ => unreachable!(),
    }
}

/// The text that a value is.
pub fn as_text(alloc: Global, value: &Value) -> Result<Text, AllocError>
    requires { IsTrue (fits a_text value.now) }
    ensures { IfOk result (λ t. value.now ≡ text_of t) }
{
    value.know();
    match value.shown() {
        Shown::Text(text) => Text::from_str(alloc, text),
        _ => unreachable!(),
    }
}

// The items of a list of texts.
fn as_items(alloc: Global, value: &Value) -> Result<Vec<Value>, AllocError>
    requires { IsTrue (fits text_lines value.now) }
    ensures { IfOk result (λ vs. value.now ≡ list_of (of_list vs.items)) }
{
    match value.shown() {
        Shown::List(items) => copied(alloc, items),
        _ => unreachable!(),
    }
}

#[tactic(auto, using(builtin_table::proofs::InTurn::owner_and_bits_fit, crate::proofs::Sorts::object_fits, crate::proofs::Sorts::text_fits))]
fn as_owner_and_bits(alloc: Global, value: &Value) -> Result<(i32, Text), AllocError>
    requires { IsTrue (fits wanted_owner_and_bits value.now) }
    ensures { IfOk result (λ r. value.now ≡ owner_and_bits_of r.0 r.1) }
{
    let Shown::List([owner, bits]) = value.shown() else {
        unreachable!()
    };
    let bits = as_text(alloc, bits)?;
    Ok((as_object(owner), bits))
}

#[tactic(auto, using(builtin_table::proofs::InTurn::owner_bits_names_fit, crate::proofs::Sorts::object_fits, crate::proofs::Sorts::text_fits))]
fn as_info(alloc: Global, value: &Value) -> Result<Info, AllocError>
    requires { IsTrue (fits owner_bits_names value.now) }
    ensures { IfOk result (λ i. value.now ≡ info_given i) }
{
    let Shown::List([owner, bits, names]) = value.shown() else {
        unreachable!()
    };
    let owner = as_object(owner);
    let bits = as_text(alloc, bits)?;
    let names = as_text(alloc, names)?;
    Ok(Info { owner, bits, names })
}

#[tactic(auto, using(builtin_table::proofs::InTurn::specifier_fits, crate::proofs::Sorts::text_fits))]
fn as_words(alloc: Global, value: &Value) -> Result<Words, AllocError>
    requires { IsTrue (fits verb_specifier value.now) }
    ensures { IfOk result (λ x. value.now ≡ words_given x) }
{
    let Shown::List([direct, preposition, indirect]) = value.shown() else {
        unreachable!()
    };
    let direct = as_text(alloc, direct)?;
    let preposition = as_text(alloc, preposition)?;
    let indirect = as_text(alloc, indirect)?;
    Ok(Words {
        direct,
        preposition,
        indirect,
    })
}
