//! Copies of answers.
ghost use Rattle.std.specs.Prelude.{◌≡◌, IfOk};
ghost use Rattle.view.specs.Meanings.{answer_of};

use std::alloc::{AllocError, Global};
use view::lists::Players;
use view::question::Answer;
use view::slot::Slot;

/// The same answer once more. What an answer shares with others has one more owner.
#[inline(always)]
pub(crate) fn copied(alloc: Global, answer: &Answer) -> Result<Answer, AllocError>
    ensures { IfOk result (λ a. answer_of a ≡ answer_of answer.now) }
{
    match answer {
        Answer::Header(header) => Ok(Answer::Header(header.as_ref().cloned()?)),
        Answer::Children(children) => Ok(Answer::Children(children.as_ref().cloned()?)),
        Answer::Contents(contents) => Ok(Answer::Contents(contents.as_ref().cloned()?)),
        Answer::Defines(names) => Ok(Answer::Defines(names.as_ref().cloned()?)),
        Answer::Slot(slot) => Ok(Answer::Slot(copied_slot(slot)?)),
        Answer::Verbs(verbs) => Ok(Answer::Verbs(verbs.as_ref().cloned()?)),
        Answer::Task(task) => Ok(Answer::Task(task.as_ref().cloned()?)),
        Answer::Waiting(ids) => Ok(Answer::Waiting(ids.clone()?)),
        Answer::Link(link) => Ok(Answer::Link(link.as_ref().cloned()?)),
        Answer::Readers(ids) => Ok(Answer::Readers(ids.clone()?)),
        Answer::Connections(connections) => Ok(Answer::Connections(connections.clone()?)),
        Answer::Connected(players) => Ok(Answer::Connected(copied_players(alloc, players)?)),
        Answer::Greatest(object) => Ok(Answer::Greatest(*object)),
        Answer::Ending(ending) => Ok(Answer::Ending(*ending)),
    }
}

// The same slot once more, or that there is none.
fn copied_slot(slot: &Option<Option<Slot>>) -> Result<Option<Option<Slot>>, AllocError>
    ensures { IfOk result (λ s. s ≡ slot.now) }
{
    match slot {
        Some(Some(slot)) => Ok(Some(Some(slot.clone()?))),
        Some(None) => Ok(Some(None)),
        None => Ok(None),
    }
}

// The same players once more.
#[inline(never)]
fn copied_players(alloc: Global, players: &Players) -> Result<Players, AllocError>
    ensures { IfOk result (λ ps. ps ≡ players.now) }
{
    let items = Vec::from_slice(alloc, players.as_slice())?;
    Ok(Players::new(items))
}
