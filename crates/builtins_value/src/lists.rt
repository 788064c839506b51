//! Lists: membership, and lists with an item more, less or changed. A list that has no other owner is changed in place.
ghost use Rattle.std.specs.Prelude.{◌≡◌, ◌≢◌, ◌<◌, ◌≤◌, ◌∷◌, [], length, min, option_to_list, IfOk, IfSome, IfNone, IsTrue};
ghost use Rattle.spec_value.specs.Datum.{same, of_list};
ghost use Rattle.spec_value.specs.Operators.{alike, first_place};
ghost use Rattle.spec_value.specs.PureBuiltins.{row, takes, is_member_row, listappend_row as listappend_of_row, listinsert_row as listinsert_of_row, listdelete_row as listdelete_of_row, setadd_row as setadd_of_row, setremove_row as setremove_of_row, listset_row as listset_of_row, listappend as listappend_of, listinsert as listinsert_of, listdelete as listdelete_of, listset as listset_of, setadd as setadd_of, setremove as setremove_of};
ghost use Rattle.spec_value.specs.Answer.{gives};
ghost use Rattle.spec_value.specs.Places.{item_count, length_of_list, list_inserted};
ghost use Rattle.moo_value.specs.Answers.{answer_of};

use crate::values::is_equal;
use moo_arith::binary::first_alike;
use moo_arith::index::{item_place, natural};
use moo_value::answer::Answer;
use moo_value::error::MooError;
use moo_value::value::{Shown, Value};
use std::alloc::AllocError;

pub(crate) fn is_member(arguments: &[Value]) -> Answer
    ensures { answer_of result ≡ row is_member_row arguments.now }
{
    let [value, list] = arguments else {
        return Err(MooError::WrongArgumentCount);
    };
    match list.shown() {
        Shown::List(items) => Ok(match first_equal(value, items) {
            Some(place) => Value::count(place + 1),
            None => Value::count(0),
        }),
        _ => Err(MooError::TypeMismatch),
    }
}

// The first place from 0 whose item is the same as a value, the case of letters counted.
fn first_equal(value: &Value, items: &[Value]) -> Option<usize>
    ensures place { result ≡ first_place (same value.now) (of_list items.now) }
    ensures inside { IfSome result (λ i. i < length items.now) }
{
    for (i, item) in items.iter().enumerate() {
        if is_equal(value, item) {
            return Some(i);
        }
    }
    None
}

pub(crate) fn listappend(
    list: Value,
    item: Value,
    place: Option<Value>,
) -> Result<Answer, AllocError>
    ensures { IfOk result (λ r. answer_of r ≡ listappend_of (list ∷ item ∷ option_to_list place)) }
{
    match place {
        None => append(list, item),
        Some(place) => match (list.shown(), place.shown()) {
            (Shown::List(items), Shown::Integer(place)) => {
                let place = place_up_to(natural(place), items);
                insert(list, place, item)
            }
            _ => Ok(Err(MooError::TypeMismatch)),
        },
    }
}

pub(crate) fn listinsert(
    list: Value,
    item: Value,
    place: Option<Value>,
) -> Result<Answer, AllocError>
    ensures { IfOk result (λ r. answer_of r ≡ listinsert_of (list ∷ item ∷ option_to_list place)) }
{
    match place {
        None => match list.shown() {
            Shown::List(_) => insert(list, 0, item),
            _ => Ok(Err(MooError::TypeMismatch)),
        },
        Some(place) => match (list.shown(), place.shown()) {
            (Shown::List(items), Shown::Integer(place)) => {
                let place = place_up_to(natural(place).saturating_sub(1), items);
                insert(list, place, item)
            }
            _ => Ok(Err(MooError::TypeMismatch)),
        },
    }
}

pub(crate) fn listdelete(mut list: Value, place: Value) -> Result<Answer, AllocError>
    ensures { IfOk result (λ r. answer_of r ≡ listdelete_of list place) }
{
    match (list.shown(), place.shown()) {
        (Shown::List(items), Shown::Integer(place)) => match item_place(items, place) {
            Some(place) => {
                list.remove(place)?;
                Ok(Ok(list))
            }
            None => Ok(Err(MooError::RangeError)),
        },
        _ => Ok(Err(MooError::TypeMismatch)),
    }
}

pub(crate) fn listset(mut list: Value, item: Value, place: Value) -> Result<Answer, AllocError>
    ensures { IfOk result (λ r. answer_of r ≡ listset_of list item place) }
{
    match (list.shown(), place.shown()) {
        (Shown::List(items), Shown::Integer(place)) => match item_place(items, place) {
            Some(place) => {
                list.replace(place, item)?;
                Ok(Ok(list))
            }
            None => Ok(Err(MooError::RangeError)),
        },
        _ => Ok(Err(MooError::TypeMismatch)),
    }
}

pub(crate) fn setadd(list: Value, item: Value) -> Result<Answer, AllocError>
    ensures { IfOk result (λ r. answer_of r ≡ setadd_of list item) }
{
    match list.shown() {
        Shown::List(items) => match alike_place(&item, items) {
            Some(_) => Ok(Ok(list)),
            None => append(list, item),
        },
        _ => Ok(Err(MooError::TypeMismatch)),
    }
}

pub(crate) fn setremove(mut list: Value, item: Value) -> Result<Answer, AllocError>
    ensures { IfOk result (λ r. answer_of r ≡ setremove_of list item) }
{
    match list.shown() {
        Shown::List(items) => match alike_place(&item, items) {
            Some(place) => {
                list.remove(place)?;
                Ok(Ok(list))
            }
            None => Ok(Ok(list)),
        },
        _ => Ok(Err(MooError::TypeMismatch)),
    }
}

// The place, or the end of the items where it is behind them.
fn place_up_to(place: usize, items: &[Value]) -> usize
    ensures { result ≡ min place (item_count (of_list items.now)) }
{
    place.min(items.len())
}

fn alike_place(item: &Value, items: &[Value]) -> Option<usize>
    ensures place { result ≡ first_place (alike item.now) (of_list items.now) }
    ensures inside { IfSome result (λ i. i < item_count (of_list items.now)) }
{
    first_alike(item, items)
}

fn append(mut list: Value, item: Value) -> Result<Answer, AllocError>
    ensures { IfOk result (λ r. answer_of r ≡ listappend_of (list ∷ item ∷ [])) }
{
    match list.shown() {
        Shown::List(_) => {
            list.push(item)?;
            Ok(Ok(list))
        }
        _ => Ok(Err(MooError::TypeMismatch)),
    }
}

fn insert(mut list: Value, place: usize, item: Value) -> Result<Answer, AllocError>
    requires { place ≤ length_of_list list }
    ensures { IfOk result (λ r. answer_of r ≡ gives (list_inserted list place item)) }
{
    list.insert(place, item)?;
    Ok(Ok(list))
}

// The first two or three arguments, if there are as many.
pub(crate) fn two_or_three(mut arguments: Vec<Value>) -> Option<(Value, Value, Option<Value>)>
    ensures items { IfSome result (λ p. arguments.items ≡ p.0 ∷ p.1 ∷ option_to_list p.2) }
    ensures other { IfNone result (length arguments.items ≢ 2 × length arguments.items ≢ 3) }
{
    let third = if arguments.len() == 3 {
        arguments.pop()
    } else {
        None
    };
    if arguments.len() != 2 {
        return None;
    }
    let second = arguments.pop()?;
    let first = arguments.pop()?;
    Some((first, second, third))
}

pub(crate) fn listappend_row(arguments: Vec<Value>) -> Result<Answer, AllocError>
    requires { IsTrue (takes listappend_of_row (length arguments.items)) }
    ensures { IfOk result (λ r. answer_of r ≡ row listappend_of_row arguments.items) }
{
    match two_or_three(arguments) {
        Some((list, item, place)) => listappend(list, item, place),
        None => Ok(Err(MooError::TypeMismatch)),
    }
}

pub(crate) fn listinsert_row(arguments: Vec<Value>) -> Result<Answer, AllocError>
    requires { IsTrue (takes listinsert_of_row (length arguments.items)) }
    ensures { IfOk result (λ r. answer_of r ≡ row listinsert_of_row arguments.items) }
{
    match two_or_three(arguments) {
        Some((list, item, place)) => listinsert(list, item, place),
        None => Ok(Err(MooError::TypeMismatch)),
    }
}

pub(crate) fn listdelete_row(arguments: Vec<Value>) -> Result<Answer, AllocError>
    requires { IsTrue (takes listdelete_of_row (length arguments.items)) }
    ensures { IfOk result (λ r. answer_of r ≡ row listdelete_of_row arguments.items) }
{
    match two_or_three(arguments) {
        Some((list, item, None)) => listdelete(list, item),
        _ => Ok(Err(MooError::WrongArgumentCount)),
    }
}

pub(crate) fn setadd_row(arguments: Vec<Value>) -> Result<Answer, AllocError>
    requires { IsTrue (takes setadd_of_row (length arguments.items)) }
    ensures { IfOk result (λ r. answer_of r ≡ row setadd_of_row arguments.items) }
{
    match two_or_three(arguments) {
        Some((list, item, None)) => setadd(list, item),
        _ => Ok(Err(MooError::WrongArgumentCount)),
    }
}

pub(crate) fn setremove_row(arguments: Vec<Value>) -> Result<Answer, AllocError>
    requires { IsTrue (takes setremove_of_row (length arguments.items)) }
    ensures { IfOk result (λ r. answer_of r ≡ row setremove_of_row arguments.items) }
{
    match two_or_three(arguments) {
        Some((list, item, None)) => setremove(list, item),
        _ => Ok(Err(MooError::WrongArgumentCount)),
    }
}

pub(crate) fn listset_row(arguments: Vec<Value>) -> Result<Answer, AllocError>
    requires { IsTrue (takes listset_of_row (length arguments.items)) }
    ensures { IfOk result (λ r. answer_of r ≡ row listset_of_row arguments.items) }
{
    match two_or_three(arguments) {
        Some((list, item, place)) => match place {
            Some(place) => listset(list, item, place),
            None => Ok(Err(MooError::WrongArgumentCount)),
        },
        None => Ok(Err(MooError::WrongArgumentCount)),
    }
}
