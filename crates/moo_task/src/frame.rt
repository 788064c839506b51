//! A verb under way, and what waits for a verb.
ghost use Rattle.std.specs.Prelude.{◌≡◌, suc, length, option_map, IfOk};
ghost use Rattle.spec_value.specs.Table.{named};
ghost use Rattle.moo_code.specs.Names.{names_of};
ghost use Rattle.moo_task.specs.Frames.{kept_of};

use crate::moo_machine::call::Call;
use crate::moo_machine::verb::State;
use crate::native::Native;
use crate::start::SharedStart;
use crate::variables::{SharedVariables, value_in};
use moo_program::names::{STARTING_NAMES, slot_among};
use moo_program::program::Program;
use moo_value::value::Value;
use std::alloc::AllocError;

/// A verb under way: who runs it for whom, and where it stands. The ticks count only for the verb that runs.
#[derive(Drop)]
pub struct Frame {
    pub call: Call,
    pub start: SharedStart,
    pub program: Program,
    /// The variables that the program does not name, among others, which do not count.
    pub further: SharedVariables,
    pub state: State,
}

/// What waits: a verb for the value of its call, or a built-in function for that of a verb which it called.
#[derive(Drop)]
pub enum Outer {
    Verb(Frame),
    Native(Native),
}

impl Frame {
    /// How many variables the verb's program has: those of every verb's start, and its own.
    #[tactic(auto, using(std::proofs::lemmas::Grind::common_steps), unfolding(moo_program::specs::Names::known))]
    pub fn names(&self) -> usize
        ensures { result ≡ length (names_of self.now.program) }
    {
        let own = self.program.names();
        own.len() + STARTING_NAMES.len()
    }

    /// The value of a variable, whether the verb's program names it or not.
    #[tactic(auto, using(crate::proofs::Finding::held_in_slot, crate::proofs::Finding::held_further))]
    pub fn variable(&self, name: &str) -> Option<&Value>
        ensures { option_map (λ v. v.now) result ≡ named (kept_of self.now).variables name.now }
    {
        let slot = slot_among(self.program.names(), name);
        if slot < self.program.slot_count() {
            value_in(&self.state.slots, slot)
        } else {
            self.further.find(name)
        }
    }

    /// The place behind the call at which the verb stands. No code is so long that there were no such place.
    #[tactic(auto, using(crate::proofs::Next::next_place))]
    pub fn call_end(&self) -> Result<usize, AllocError>
        ensures { IfOk result (λ end. end ≡ suc self.now.state.place) }
    {
        match self.state.place.checked_add(1) {
            Some(end) => Ok(end),
            None => Err(AllocError),
        }
    }
}
