//! What waits for the verb that runs.
ghost use Rattle.std.specs.Prelude.{◌≡◌, ◌<◌, IfOk, OnOk, OnErr, MatchOption, [], ◌∷◌, vec_len, vec_capacity};
ghost use Rattle.moo_code.specs.Machine.{verb, native, verbs as verbs_of};
ghost use Rattle.moo_task.specs.Frames.{native_of, kept_of, outer_of, outers_of};

use crate::frame::{Frame, Outer};
use crate::native::Native;
use crate::room::Room;
use moo_value::text::Text;
use moo_value::value::Value;
use std::alloc::{AllocError, Global};
use std::marker::Model;
use std::mem;

/// What waits for the verb that runs. Verbs are counted as they come and go.
#[derive(Drop)]
pub struct Outers {
    // the innermost last
    stack: Vec<Outer>,
    verbs: usize,
    // what verbs that have returned left for those that come
    rooms: Vec<Room>,
}

impl Model for Outers {
    ghost use Rattle.std.specs.Prelude.{◌≡◌, List};
    ghost use Rattle.std.specs.Coded.{coded_list};
    ghost use Rattle.moo_code.specs.Machine.{Outer as Meant, verbs as verbs_of};
    ghost use Rattle.moo_task.specs.Codes.{outer_code};

    ghost Value = { List Meant };

    ghost coded = { coded_list outer_code };

    ghost use Rattle.moo_task.specs.Frames.{outers_of};

    ghost view = { λ a. outers_of a.stack.items };

    ghost invariant = { λ a. a.verbs ≡ verbs_of (outers_of a.stack.items) };
}

#[tactic(auto, using(crate::proofs::Waiting::one_more, crate::proofs::Waiting::few_verbs))]
impl Outers {
    /// Nothing waits.
    pub fn new(alloc: Global) -> Outers
        ensures { result ≡ [] }
    {
        Outers {
            stack: Vec::new(alloc),
            verbs: 0,
            rooms: Vec::new(alloc),
        }
    }

    /// How many verbs wait.
    pub fn verbs(&self) -> usize
        ensures { result ≡ verbs_of self.now }
    {
        self.verbs
    }

    /// What waits, the innermost last.
    pub fn as_slice(&self) -> &[Outer]
        ensures { outers_of result.now ≡ self.now }
    {
        self.stack.as_slice()
    }

    /// One more verb waits.
    #[inline(always)]
    pub fn push_verb(&mut self, frame: Frame) -> Result<(), AllocError>
        ensures ok { OnOk result (self.new ≡ verb (kept_of frame) ∷ self.old) }
        ensures err { OnErr result (self.new ≡ self.old) }
    {
        if self.stack.len() == self.stack.capacity() {
            one_more_place(&mut self.stack)?;
        }
        self.stack.push_reserved(Outer::Verb(frame));
        self.verbs += 1;
        Ok(())
    }

    /// Room for a verb that comes, left by one that has returned, or none yet.
    #[inline(always)]
    pub fn take_room(&mut self, alloc: Global) -> Room
        ensures { self.new ≡ self.old }
    {
        match self.rooms.pop() {
            Some(room) => room,
            None => Room::new(alloc),
        }
    }

    /// A list that the next room has, perhaps with an item that does not count.
    #[inline(always)]
    pub fn spare_list(&mut self) -> Option<Value>
        ensures { self.new ≡ self.old }
    {
        let room = self.rooms.last_mut()?;
        let arguments = room.slots.first_mut()?;
        mem::replace(arguments, None)
    }

    /// The word by which a verb is called, again: the one that the next room has, if it has the same characters, or a clone.
    #[inline(always)]
    pub fn word_again(&mut self, word: &Text) -> Result<Text, AllocError>
        ensures word { IfOk result (λ w. w ≡ word.now) }
        ensures stays { self.new ≡ self.old }
    {
        match self.rooms.last_mut() {
            Some(room) => room.word_again(word),
            None => word.clone(),
        }
    }

    /// The room of a verb that has returned, for one that comes. Where there is no memory for it, it goes.
    #[inline(always)]
    pub fn leave_room(&mut self, left: Frame)
        ensures { self.new ≡ self.old }
    {
        let room = Room::left(left);
        if self.rooms.len() == self.rooms.capacity() && self.rooms.reserve(1).is_err() {
            return;
        }
        self.rooms.push_reserved(room);
    }

    /// Lets go of the rooms that are left.
    pub fn forget_rooms(&mut self)
        ensures { self.new ≡ self.old }
    {
        self.rooms.clear();
    }

    /// One more built-in function waits.
    pub fn push_native(&mut self, waiting: Native) -> Result<(), AllocError>
        ensures ok { OnOk result (self.new ≡ native (native_of waiting) ∷ self.old) }
        ensures err { OnErr result (self.new ≡ self.old) }
    {
        self.stack.push(Outer::Native(waiting))?;
        Ok(())
    }

    /// The innermost that waits.
    #[inline(always)]
    pub fn pop(&mut self) -> Option<Outer>
        ensures { MatchOption result ((self.old ≡ []) × (self.new ≡ [])) (λ o. self.old ≡ outer_of o ∷ self.new) }
    {
        match self.stack.pop() {
            None => None,
            Some(Outer::Verb(frame)) => {
                self.verbs -= 1;
                Some(Outer::Verb(frame))
            }
            Some(Outer::Native(native)) => Some(Outer::Native(native)),
        }
    }
}

// Room for some more.
#[cold]
#[inline(never)]
fn one_more_place(stack: &mut Vec<Outer>) -> Result<(), AllocError>
    ensures items { stack.new.items ≡ stack.old.items }
    ensures room { OnOk result (vec_len stack.new < vec_capacity stack.new) }
{
    stack.reserve(4)?;
    Ok(())
}
