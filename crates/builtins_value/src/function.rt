//! The functions by their names.
ghost use Rattle.std.specs.Prelude.{◌≡◌, length, IfOk, IfSome, IsTrue};
ghost use Rattle.spec_value.specs.Answer.{gives, limited as limited_of, limited_answer as limited_answer_of};
ghost use Rattle.spec_value.specs.PureBuiltins.{takes as takes_of, row as row_of, call_value};
ghost use Rattle.builtins_value.specs.Functions.{function_of};
ghost use Rattle.moo_value.specs.Answers.{answer_of};

use crate::{lists, numbers, texts, values};
use moo_value::answer::{Answer, WEIGHT_LIMIT, limited};
use moo_value::error::MooError;
use moo_value::value::Value;
use std::alloc::{AllocError, Global};

/// A built-in function of values alone.
#[derive(Clone, Copy, PartialEq, Eq, Debug)]
pub enum PureFunction {
    /// `typeof`
    Typeof,
    /// `tostr`
    Tostr,
    /// `toliteral`
    Toliteral,
    /// `toint`
    Toint,
    /// `toobj`
    Toobj,
    /// `equal`
    Equal,
    /// `length`
    Length,
    /// `is_member`
    IsMember,
    /// `listappend`
    Listappend,
    /// `listinsert`
    Listinsert,
    /// `listdelete`
    Listdelete,
    /// `listset`
    Listset,
    /// `setadd`
    Setadd,
    /// `setremove`
    Setremove,
    /// `index`
    Index,
    /// `rindex`
    Rindex,
    /// `strcmp`
    Strcmp,
    /// `strsub`
    Strsub,
    /// `abs`
    Abs,
    /// `min`
    Min,
    /// `max`
    Max,
}

impl PureFunction {
    ghost use Rattle.std.specs.Prelude.{option_map};
    ghost use Rattle.builtins_value.specs.Functions.{names, named_in};

    /// The function of a name in lower case.
    pub fn from_name(name: &str) -> Option<PureFunction>
        ensures { option_map function_of result ≡ named_in name.now names }
    {
        match name {
            "typeof" => Some(PureFunction::Typeof),
            "tostr" => Some(PureFunction::Tostr),
            "toliteral" => Some(PureFunction::Toliteral),
            "toint" | "tonum" => Some(PureFunction::Toint),
            "toobj" => Some(PureFunction::Toobj),
            "equal" => Some(PureFunction::Equal),
            "length" => Some(PureFunction::Length),
            "is_member" => Some(PureFunction::IsMember),
            "listappend" => Some(PureFunction::Listappend),
            "listinsert" => Some(PureFunction::Listinsert),
            "listdelete" => Some(PureFunction::Listdelete),
            "listset" => Some(PureFunction::Listset),
            "setadd" => Some(PureFunction::Setadd),
            "setremove" => Some(PureFunction::Setremove),
            "index" => Some(PureFunction::Index),
            "rindex" => Some(PureFunction::Rindex),
            "strcmp" => Some(PureFunction::Strcmp),
            "strsub" => Some(PureFunction::Strsub),
            "abs" => Some(PureFunction::Abs),
            "min" => Some(PureFunction::Min),
            "max" => Some(PureFunction::Max),
            _ => None,
        }
    }

    /// Whether the function takes so many arguments.
    pub fn takes(self, count: usize) -> bool
        ensures { result ≡ takes_of (function_of self) count }
    {
        match self {
            PureFunction::Tostr => true,
            PureFunction::Min | PureFunction::Max => count >= 1,
            PureFunction::Equal
            | PureFunction::IsMember
            | PureFunction::Listdelete
            | PureFunction::Setadd
            | PureFunction::Setremove
            | PureFunction::Strcmp => count == 2,
            PureFunction::Listset => count == 3,
            PureFunction::Listappend
            | PureFunction::Listinsert
            | PureFunction::Index
            | PureFunction::Rindex => count >= 2 && count <= 3,
            PureFunction::Strsub => count >= 3 && count <= 4,
            PureFunction::Typeof
            | PureFunction::Toliteral
            | PureFunction::Toint
            | PureFunction::Toobj
            | PureFunction::Length
            | PureFunction::Abs => count == 1,
        }
    }
}

/// What a call of a function answers.
pub fn call(
    alloc: Global,
    function: PureFunction,
    arguments: Vec<Value>,
) -> Result<Answer, AllocError>
    ensures { IfOk result (λ r. answer_of r ≡ call_value (function_of function) arguments.items) }
{
    if !function.takes(arguments.len()) {
        return Ok(Err(MooError::WrongArgumentCount));
    }
    Ok(limited_answer(row(alloc, function, arguments)?))
}

fn limited_answer(answer: Answer) -> Answer
    ensures { answer_of result ≡ limited_answer_of (answer_of answer) }
{
    match answer {
        Ok(value) => limited(value),
        Err(error) => Err(error),
    }
}

fn row(alloc: Global, function: PureFunction, arguments: Vec<Value>) -> Result<Answer, AllocError>
    requires { IsTrue (takes_of (function_of function) (length arguments.items)) }
    ensures { IfOk result (λ r. limited_answer_of (answer_of r) ≡ limited_answer_of (row_of (function_of function) arguments.items)) }
{
    match function {
        PureFunction::Typeof => Ok(values::typeof_value(&arguments)),
        PureFunction::Tostr => values::tostr(alloc, &arguments),
        PureFunction::Toliteral => values::toliteral(alloc, &arguments),
        PureFunction::Toint => Ok(numbers::toint(&arguments)),
        PureFunction::Toobj => Ok(numbers::toobj(&arguments)),
        PureFunction::Equal => Ok(values::equal(&arguments)),
        PureFunction::Length => Ok(values::length(&arguments)),
        PureFunction::IsMember => Ok(lists::is_member(&arguments)),
        PureFunction::Listappend => lists::listappend_row(arguments),
        PureFunction::Listinsert => lists::listinsert_row(arguments),
        PureFunction::Listdelete => lists::listdelete_row(arguments),
        PureFunction::Listset => lists::listset_row(arguments),
        PureFunction::Setadd => lists::setadd_row(arguments),
        PureFunction::Setremove => lists::setremove_row(arguments),
        PureFunction::Index => Ok(texts::index(&arguments)),
        PureFunction::Rindex => Ok(texts::rindex(&arguments)),
        PureFunction::Strcmp => Ok(texts::strcmp(&arguments)),
        PureFunction::Strsub => texts::strsub(alloc, &arguments),
        PureFunction::Abs => Ok(numbers::abs(&arguments)),
        PureFunction::Min => Ok(numbers::min(&arguments)),
        PureFunction::Max => Ok(numbers::max(&arguments)),
    }
}

/// The value of a call of a function whose arguments are lent, if it has one. The functions that make another list of one that they are given have none
/// here: `call` does it in place.
pub fn lent(
    alloc: Global,
    function: PureFunction,
    arguments: &[Value],
) -> Result<Option<Value>, AllocError>
    ensures answer { IfOk result (λ o. IfSome o (λ v. call_value (function_of function) arguments.now ≡ gives v)) }
    ensures light { IfOk result (λ o. IfSome o (λ v. limited_of v ≡ gives v)) }
{
    if !function.takes(arguments.len()) {
        return Ok(None);
    }
    lent_row(alloc, function, arguments)
}

// The value of an answer, if it has one that does not weigh too much.
fn given(answer: Answer) -> Option<Value>
    ensures answer { IfSome result (λ v. limited_answer_of (answer_of answer) ≡ gives v) }
    ensures light { IfSome result (λ v. limited_of v ≡ gives v) }
{
    let Ok(value) = answer else {
        return None;
    };
    if value.weight() > WEIGHT_LIMIT {
        return None;
    }
    Some(value)
}

fn lent_row(
    alloc: Global,
    function: PureFunction,
    arguments: &[Value],
) -> Result<Option<Value>, AllocError>
    requires { IsTrue (takes_of (function_of function) (length arguments.now)) }
    ensures answer { IfOk result (λ o. IfSome o (λ v. limited_answer_of (row_of (function_of function) arguments.now) ≡ gives v)) }
    ensures light { IfOk result (λ o. IfSome o (λ v. limited_of v ≡ gives v)) }
{
    match function {
        PureFunction::Typeof => Ok(given(values::typeof_value(arguments))),
        PureFunction::Tostr => Ok(given(values::tostr(alloc, arguments)?)),
        PureFunction::Toliteral => Ok(given(values::toliteral(alloc, arguments)?)),
        PureFunction::Toint => Ok(given(numbers::toint(arguments))),
        PureFunction::Toobj => Ok(given(numbers::toobj(arguments))),
        PureFunction::Equal => Ok(given(values::equal(arguments))),
        PureFunction::Length => Ok(given(values::length(arguments))),
        PureFunction::IsMember => Ok(given(lists::is_member(arguments))),
        PureFunction::Index => Ok(given(texts::index(arguments))),
        PureFunction::Rindex => Ok(given(texts::rindex(arguments))),
        PureFunction::Strcmp => Ok(given(texts::strcmp(arguments))),
        PureFunction::Strsub => Ok(given(texts::strsub(alloc, arguments)?)),
        PureFunction::Abs => Ok(given(numbers::abs(arguments))),
        PureFunction::Min => Ok(given(numbers::min(arguments))),
        PureFunction::Max => Ok(given(numbers::max(arguments))),
        PureFunction::Listappend
        | PureFunction::Listinsert
        | PureFunction::Listdelete
        | PureFunction::Listset
        | PureFunction::Setadd
        | PureFunction::Setremove => Ok(None),
    }
}
