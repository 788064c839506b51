//! What a command line gave, for all the verbs of a task.
ghost use Rattle.std.specs.Prelude.{◌≡◌, IsTrue, IfOk};
ghost use Rattle.moo_task.specs.Starts.{start_of};
ghost use Rattle.moo_task.specs.declared.start.Held.TheVariants.{Unnamed};

use crate::begin::are_empty;
use crate::moo_machine::call::Start;
use moo_value::text::Text;
use std::alloc::{AllocError, Global};
use std::marker::Model;
use std::sync::Arc;

/// What a command line gave, shared by the verbs that it set going: a clone is a count.
#[derive(Drop)]
pub struct SharedStart {
    held: Held,
}

#[derive(Drop)]
enum Held {
    // Nothing is named: each of the texts is this one, without characters, and there is no object.
    Unnamed(Text),
    Named(Arc<Start>),
}

// The number that stands for no object.
const NOWHERE: i32 = -1;

impl Model for SharedStart {
    ghost use Rattle.moo_task.specs.Starts.{start_of};
    ghost use Rattle.spec_world.specs.World.{Start as Meant};
    ghost use Rattle.spec_world.specs.WorldCode.{start_code};

    ghost Value = { Meant };

    ghost coded = { start_code };

    ghost view = { λ a. start_of a.held };
}

impl SharedStart {
    /// To be shared. What names nothing takes no memory.
    pub fn new(alloc: Global, start: Start) -> Result<SharedStart, AllocError>
        ensures { IfOk result (λ s. s ≡ start) }
    {
        if names_nothing(&start) {
            return Ok(SharedStart {
                held: Held::Unnamed(start.argstr),
            });
        }
        Ok(SharedStart {
            held: Held::Named(Arc::new(alloc, start)?),
        })
    }

    /// Another one again: the one that is kept, where neither of them names anything, so that no owner is counted; else a clone.
    #[inline(always)]
    pub fn again(kept: Option<SharedStart>, other: &SharedStart) -> Result<SharedStart, AllocError>
        ensures { IfOk result (λ s. s ≡ other.now) }
    {
        let Some(kept) = kept else {
            return other.clone();
        };
        if kept.is_unnamed_as(other) {
            return Ok(kept);
        }
        other.clone()
    }

    // Whether neither of them names anything.
    #[tactic(auto, using(crate::proofs::Unnamed::alike))]
    #[inline(always)]
    fn is_unnamed_as(&self, other: &SharedStart) -> bool
        ensures { IsTrue result → self.now ≡ other.now }
    {
        match (&self.held, &other.held) {
            (Held::Unnamed(text), Held::Unnamed(other)) => are_empty(text, other),
            _ => false,
        }
    }

    /// What was typed behind the first word.
    #[inline(always)]
    pub fn argstr(&self) -> &Text
        ensures { result.now ≡ self.now.argstr }
    {
        match &self.held {
            Held::Unnamed(text) => text,
            Held::Named(start) => &start.argstr,
        }
    }

    /// The direct object.
    #[inline(always)]
    pub fn dobj(&self) -> i32
        ensures { result ≡ self.now.dobj }
    {
        match &self.held {
            Held::Unnamed(_) => NOWHERE,
            Held::Named(start) => start.dobj,
        }
    }

    /// The words of the direct object.
    #[inline(always)]
    pub fn dobjstr(&self) -> &Text
        ensures { result.now ≡ self.now.dobjstr }
    {
        match &self.held {
            Held::Unnamed(text) => text,
            Held::Named(start) => &start.dobjstr,
        }
    }

    /// The preposition.
    #[inline(always)]
    pub fn prepstr(&self) -> &Text
        ensures { result.now ≡ self.now.prepstr }
    {
        match &self.held {
            Held::Unnamed(text) => text,
            Held::Named(start) => &start.prepstr,
        }
    }

    /// The indirect object.
    #[inline(always)]
    pub fn iobj(&self) -> i32
        ensures { result ≡ self.now.iobj }
    {
        match &self.held {
            Held::Unnamed(_) => NOWHERE,
            Held::Named(start) => start.iobj,
        }
    }

    /// The words of the indirect object.
    #[inline(always)]
    pub fn iobjstr(&self) -> &Text
        ensures { result.now ≡ self.now.iobjstr }
    {
        match &self.held {
            Held::Unnamed(text) => text,
            Held::Named(start) => &start.iobjstr,
        }
    }
}

// Whether nothing is named.
#[tactic(auto, using(crate::proofs::Unnamed::unnamed))]
fn names_nothing(start: &Start) -> bool
    ensures { IsTrue result → start_of (Unnamed start.now.argstr) ≡ start.now }
{
    start.argstr.is_empty()
        && start.dobj == NOWHERE
        && start.dobjstr.is_empty()
        && start.prepstr.is_empty()
        && start.iobj == NOWHERE
        && start.iobjstr.is_empty()
}

impl Clone for SharedStart {
    ghost is_clone = { λ start copy. copy ≡ start };

    fn clone(&self) -> Result<SharedStart, AllocError> {
        let held = match &self.held {
            Held::Unnamed(text) => Held::Unnamed(text.clone()?),
            Held::Named(start) => Held::Named(start.clone()?),
        };
        Ok(SharedStart { held })
    }
}
