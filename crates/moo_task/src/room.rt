//! What a verb that has returned leaves for one that comes.
ghost use Rattle.std.specs.Prelude.{[], ◌≡◌, IfOk};

use crate::begin::is_short_same;
use crate::frame::Frame;
use crate::moo_machine::call::Call;
use crate::moo_machine::operands::Operands;
use crate::moo_machine::verb::State;
use crate::start::SharedStart;
use moo_program::names::STARTING_NAMES;
use moo_value::text::Text;
use moo_value::value::{Shown, Value};
use std::alloc::{AllocError, Global};
use std::mem;

/// Memory for the variables and the operands of a verb, what a command line gave, and the word by which the verb was called. The variables that are there do
/// not count.
#[derive(Drop)]
pub struct Room {
    pub slots: Vec<Option<Value>>,
    pub operands: Operands,
    pub start: Option<SharedStart>,
    pub word: Option<Text>,
}

impl Room {
    /// No memory yet.
    pub fn new(alloc: Global) -> Room {
        Room {
            slots: Vec::new(alloc),
            operands: Operands::new(alloc),
            start: None,
            word: None,
        }
    }

    /// What a verb had. Of its variables only those of every verb's start stay, and of the arguments a list of one light item.
    #[inline(always)]
    pub fn left(frame: Frame) -> Room {
        let Frame {
            call,
            start,
            program: _program,
            further: _further,
            state,
        } = frame;
        let Call {
            this: _,
            caller: _,
            definer: _,
            programmer: _,
            verb,
            debug: _,
        } = call;
        let State {
            place: _,
            mut operands,
            mut slots,
            ticks: _,
        } = state;
        slots.truncate(STARTING_NAMES.len());
        if let Some(arguments) = slots.first_mut()
            && !is_spare(arguments)
        {
            *arguments = None;
        }
        operands.clear();
        Room {
            slots,
            operands,
            start: Some(start),
            word: Some(verb),
        }
    }

    /// A word again: the one that is here, where it has the same characters, so that no owner is counted; else a clone.
    #[inline(always)]
    pub fn word_again(&mut self, word: &Text) -> Result<Text, AllocError>
        ensures { IfOk result (λ w. w ≡ word.now) }
    {
        let kept = mem::replace(&mut self.word, None);
        match kept {
            Some(kept) => same_or_clone(kept, word),
            None => word.clone(),
        }
    }
}

#[inline(always)]
fn same_or_clone(kept: Text, word: &Text) -> Result<Text, AllocError>
    ensures { IfOk result (λ w. w ≡ word.now) }
{
    if is_short_same(&kept, word) {
        return Ok(kept);
    }
    word.clone()
}

// Whether a variable has a list of one item that weighs no more than an integer.
#[inline(always)]
fn is_spare(variable: &Option<Value>) -> bool {
    let Some(value) = variable else {
        return false;
    };
    match value.shown() {
        Shown::List(items) => items.len() == 1 && value.weight() <= 2,
        _ => false,
    }
}
