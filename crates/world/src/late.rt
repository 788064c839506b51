//! Answers after light changes, which follow from the answers before them: no records are made to give them.
ghost use Rattle.std.specs.Prelude.{◌≡◌, ◌↔◌, Some, map, IsTrue, IfOk, OnOk, option_map};
ghost use Rattle.spec_value.specs.Datum.{fold_case};
ghost use Rattle.spec_world.specs.World.{World as Plain, Slot as SlotOf};
ghost use Rattle.spec_world.specs.Questions.{ask, apply, apply_all, slot_on, the_slot};
ghost use Rattle.view.specs.Meanings.{question_of, answer_of, change_of};
ghost use Rattle.world.specs.Late.{is_light as is_light_change, AllLight, slot_told as slot_of_answer, with_later};

use crate::answers::copied;
use crate::draft::Draft;
use crate::near::{last_place, value_at};
use moo_value::text::Text;
use moo_value::value::Value;
use slot_content::content::Content;
use std::alloc::{AllocError, Global};
use view::change::Change;
use view::question::{Answer, Question};
use view::slot::Slot;

/// Whether a change is light: another value in a slot, or the next step's number.
pub(crate) fn is_light(change: &Change) -> bool
    ensures { result ≡ is_light_change (change_of change.now) }
{
    match change {
        Change::Value(_, _, _) => true,
        Change::Next(_) => true,
        _ => false,
    }
}

/// The answer to a question after light changes, where this was the one before them.
pub(crate) fn answer_after(
    alloc: Global,
    question: &Question,
    home: &Answer,
    changes: &[Change],
) -> Result<Answer, AllocError>
    requires { AllLight (map change_of changes.now) }
    ensures { IfOk result (λ a. (w : Plain) → answer_of home.now ≡ ask w (question_of question.now) → answer_of a ≡ ask (apply_all (map change_of changes.now) w) (question_of question.now)) }
{
    match question {
        Question::Slot(object, name) => slot_answer_after(alloc, *object, name, home, changes),
        _ => copied(alloc, home),
    }
}

// The same of a slot.
fn slot_answer_after(
    alloc: Global,
    object: i32,
    name: &Text,
    home: &Answer,
    changes: &[Change],
) -> Result<Answer, AllocError>
    requires { AllLight (map change_of changes.now) }
    ensures { IfOk result (λ a. (w : Plain) → answer_of home.now ≡ the_slot (slot_on w object name.now) → answer_of a ≡ the_slot (slot_on (apply_all (map change_of changes.now) w) object name.now)) }
{
    match slot_told(home) {
        Some(slot) => {
            let slot = slot_after(object, name, slot, changes)?;
            Ok(Answer::Slot(Some(Some(slot))))
        }
        None => copied(alloc, home),
    }
}

/// The answer that records have to a question after light changes.
pub(crate) fn asked_after(
    home: &Draft,
    question: &Question,
    changes: &[Change],
) -> Result<Answer, AllocError>
    requires { AllLight (map change_of changes.now) }
    ensures { IfOk result (λ a. answer_of a ≡ ask (apply_all (map change_of changes.now) home.now) (question_of question.now)) }
{
    match question {
        Question::Slot(object, name) => slot_asked_after(home, *object, name, changes),
        _ => home.ask(question),
    }
}

// The same of a slot.
#[inline(always)]
fn slot_asked_after(
    home: &Draft,
    object: i32,
    name: &Text,
    changes: &[Change],
) -> Result<Answer, AllocError>
    requires { AllLight (map change_of changes.now) }
    ensures { IfOk result (λ a. answer_of a ≡ the_slot (slot_on (apply_all (map change_of changes.now) home.now) object name.now)) }
{
    match home.slot(object, name) {
        Some(Some(slot)) => {
            let slot = slot_after(object, name, slot, changes)?;
            Ok(Answer::Slot(Some(Some(slot))))
        }
        Some(None) => Ok(Answer::Slot(Some(None))),
        None => Ok(Answer::Slot(None)),
    }
}

// The slot that an answer tells, if it is there.
fn slot_told(answer: &Answer) -> Option<&Slot>
    ensures { option_map (λ s. s.now) result ≡ slot_of_answer (answer_of answer.now) }
{
    match answer {
        Answer::Slot(Some(Some(slot))) => Some(slot),
        _ => None,
    }
}

// A slot that is there, after light changes.
fn slot_after(object: i32, name: &Text, home: &Slot, changes: &[Change]) -> Result<Slot, AllocError>
    requires { AllLight (map change_of changes.now) }
    ensures { IfOk result (λ s. (w : Plain) → slot_on w object name.now ≡ Some (Some home.now) → slot_on (apply_all (map change_of changes.now) w) object name.now ≡ Some (Some s)) }
{
    let later = value_after(object, name, changes);
    let slot = slot_with(home, later)?;
    Ok(slot)
}

/// The same slot once more, with another value if it got one later.
#[inline(always)]
pub(crate) fn slot_with(home: &Slot, later: Option<&Value>) -> Result<Slot, AllocError>
    ensures { IfOk result (λ s. s ≡ with_later home.now (option_map (λ v. v.now) later.entry)) }
{
    let content = match later {
        Some(value) => Content::value(value.clone()?),
        None => home.content.clone()?,
    };
    Ok(Slot {
        content,
        owner: home.owner,
        readable: home.readable,
        writable: home.writable,
        changeable: home.changeable,
    })
}

/// The value that a slot gets last by light changes, if it gets one.
pub(crate) fn value_after<'c>(object: i32, name: &Text, changes: &'c [Change]) -> Option<&'c Value>
    requires { AllLight (map change_of changes.now) }
    ensures { (w : Plain) (s : SlotOf) → slot_on w object name.now ≡ Some (Some s) → slot_on (apply_all (map change_of changes.now) w) object name.now ≡ Some (Some (with_later s (option_map (λ v. v.now) result))) }
{
    let place = last_place(object, name, changes);
    match place {
        Some(place) => value_at(changes, place),
        None => None,
    }
}
