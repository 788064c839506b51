//! A task under way.
ghost use Rattle.std.specs.Prelude.{◌≡◌, ◌<◌, ◌∷◌, [], ℕ, suc, IfOk, OnOk};
ghost use Rattle.spec_value.specs.Datum.{Data, list};
ghost use Rattle.spec_moo.specs.Scene.{Scene};
ghost use Rattle.spec_moo.specs.Leaving.{failure};
ghost use Rattle.moo_value.specs.Errors.{code_of};
ghost use Rattle.moo_value.specs.Answers.{answer_of};
ghost use Rattle.moo_code.specs.Machine.{at_place, verb, verbs as verbs_of};
ghost use Rattle.moo_task.specs.Meant.{failure_meant};
ghost use Rattle.moo_task.specs.Frames.{kept_of, begun};
ghost use Rattle.moo_task.specs.Outcomes.{led, running_kept, ticks_of, Keeps};
ghost use Rattle.moo_task.specs.declared.outcome.Outcome.{Outcome as Meant};
ghost use Rattle.moo_task.specs.Outcomes.{goes_at, fails_at, native_between, enters_at, native_answers_at, natively_at};

use crate::begin::begin;
use crate::effect::NativeEffect;
use crate::frame::Frame;
use crate::moo_machine::call::Call;
use crate::moo_machine::leaving::{Failure, Leaving};
use crate::moo_machine::raising::raised;
use crate::native::Native;
use crate::outcome::{End, Outcome};
use crate::outers::Outers;
use crate::start::SharedStart;
use moo_program::program::Program;
use moo_value::answer::{Answer, limited};
use moo_value::error::MooError;
use moo_value::value::Value;
use std::alloc::{AllocError, Global};
use std::mem;

/// The greatest number of verbs that may wait for another one.
pub const MOST_WAITING: usize = 49;

/// A task under way: for whom, the verb that runs, and what waits for it.
#[derive(Drop)]
pub struct Running {
    pub player: i32,
    pub frame: Frame,
    pub outer: Outers,
}

impl Running {
    /// A task that waited at a call goes on behind it, with a value there and so many ticks.
    pub fn go_on(
        player: i32,
        frame: Frame,
        outer: Outers,
        value: Value,
        ticks: u32,
    ) -> Result<Running, AllocError>
        ensures kept { IfOk result (λ r. running_kept r ≡ at_place (kept_of frame) (suc frame.state.place) (value ∷ frame.state.operands)) }
        ensures player { IfOk result (λ r. r.player ≡ player) }
        ensures outer { IfOk result (λ r. r.outer ≡ outer) }
        ensures ticks { IfOk result (λ r. ticks_of r ≡ ticks) }
    {
        let mut frame = frame;
        let end = frame.call_end()?;
        frame.state.operands.push(value)?;
        frame.state.place = end;
        frame.state.ticks = ticks;
        Ok(Running {
            player,
            frame,
            outer,
        })
    }

    /// The verb goes on at a place with one more operand.
    #[inline]
    pub fn goes(&mut self, end: usize, value: Value) -> Result<Outcome, AllocError>
        ensures led { IfOk result (λ o. (s : Scene) → goes_at self.old s end value ≡ led o s self.new) }
        ensures keeps { IfOk result (λ o. Keeps o self.old self.new) }
    {
        self.frame.state.operands.push(value)?;
        self.frame.state.place = end;
        Ok(Outcome::On)
    }

    /// An error of an expression that ends at a place: by the d bit it is raised, else its code is the value.
    #[inline(never)]
    pub fn fails(
        &mut self,
        alloc: Global,
        end: usize,
        error: MooError,
    ) -> Result<Outcome, AllocError>
        ensures led { IfOk result (λ o. (s : Scene) → fails_at self.old s end (failure (code_of error)) ≡ led o s self.new) }
        ensures keeps { IfOk result (λ o. Keeps o self.old self.new) }
    {
        if self.frame.call.debug {
            let failure = raised(alloc, error, self.player, &self.frame.call)?;
            return Ok(Outcome::Leaves(Leaving::Failed(failure)));
        }
        self.frame.state.operands.push(Value::error(error))?;
        self.frame.state.place = end;
        Ok(Outcome::On)
    }

    /// The same of an error with its own message and value.
    #[inline(never)]
    pub fn complains(&mut self, end: usize, mut failure: Failure) -> Result<Outcome, AllocError>
        ensures led { IfOk result (λ o. (s : Scene) → fails_at self.old s end (failure_meant failure) ≡ led o s self.new) }
        ensures keeps { IfOk result (λ o. Keeps o self.old self.new) }
    {
        if self.frame.call.debug {
            failure.come_by(self.player, &self.frame.call)?;
            return Ok(Outcome::Leaves(Leaving::Failed(failure)));
        }
        let Failure {
            code,
            message: _,
            value: _,
            traceback: _,
        } = failure;
        self.frame.state.operands.push(code)?;
        self.frame.state.place = end;
        Ok(Outcome::On)
    }

    // The verb that runs waits for another one, which begins with these arguments.
    #[inline(always)]
    fn wait_for(
        &mut self,
        alloc: Global,
        call: Call,
        program: Program,
        arguments: Value,
    ) -> Result<(), AllocError>
        ensures player { OnOk result (self.new.player ≡ self.old.player) }
        ensures begins { OnOk result ((args : Data) → arguments ≡ list args
            → kept_of self.new.frame ≡ begun self.old.player self.old.frame.start call program args) }
        ensures waits { OnOk result (self.new.outer ≡ verb (kept_of self.old.frame) ∷ self.old.outer) }
        ensures ticks { OnOk result (ticks_of self.new ≡ ticks_of self.old) }
    {
        let ticks = self.frame.state.ticks;
        let mut room = self.outer.take_room(alloc);
        let kept = mem::replace(&mut room.start, None);
        let start = SharedStart::again(kept, &self.frame.start)?;
        let called = begin(room, self.player, start, call, program, arguments, ticks)?;
        let caller = mem::replace(&mut self.frame, called);
        self.outer.push_verb(caller)?;
        Ok(())
    }

    /// A verb is entered with these arguments, where there is room for one more that waits.
    #[inline(always)]
    pub fn enter_verb(
        &mut self,
        alloc: Global,
        call: Call,
        program: Program,
        arguments: Value,
    ) -> Result<(), AllocError>
        requires { verbs_of self.old.outer < 49 }
        ensures led { OnOk result ((s : Scene) (end : ℕ) (args : Data) → arguments ≡ list args
            → enters_at self.old s [] end call program args ≡ led Meant.On s self.new) }
        ensures player { OnOk result (self.new.player ≡ self.old.player) }
    {
        self.wait_for(alloc, call, program, arguments)?;
        Ok(())
    }

    /// A verb is entered with these arguments, or with a built-in function that waits for it between: `E_MAXREC` where too
    /// many verbs are under way. The call ends at a place.
    #[inline(never)]
    pub fn enter(
        &mut self,
        alloc: Global,
        between: Option<Native>,
        end: usize,
        call: Call,
        program: Program,
        arguments: Value,
    ) -> Result<Outcome, AllocError>
        ensures led { IfOk result (λ o. (s : Scene) (args : Data) → arguments ≡ list args
            → enters_at self.old s (native_between between) end call program args ≡ led o s self.new) }
        ensures keeps { IfOk result (λ o. Keeps o self.old self.new) }
    {
        if self.outer.verbs() >= MOST_WAITING {
            return self.fails(alloc, end, MooError::TooManyCalls);
        }
        self.wait_for(alloc, call, program, arguments)?;
        match between {
            Some(native) => {
                self.outer.push_native(native)?;
                Ok(Outcome::On)
            }
            None => Ok(Outcome::On),
        }
    }
}

#[tactic(auto, unfolding(moo_code::specs::Machine::natively_does))]
impl Running {
    /// What a built-in function does, whose call ends at a place.
    pub fn natively(
        &mut self,
        alloc: Global,
        end: usize,
        effect: NativeEffect,
    ) -> Result<Outcome, AllocError>
        ensures led { IfOk result (λ o. (s : Scene) → natively_at self.old s end effect ≡ led o s self.new) }
        ensures keeps { IfOk result (λ o. Keeps o self.old self.new) }
    {
        match effect {
            NativeEffect::Answers(answer) => self.answers(alloc, end, answer),
            NativeEffect::Complains(failure) => self.complains(end, failure),
            NativeEffect::Begins {
                native,
                call,
                program,
                arguments,
            } => {
                let arguments = Value::list(arguments)?;
                self.enter(alloc, Some(native), end, call, program, arguments)
            }
            NativeEffect::Waits(waiting) => Ok(Outcome::Waits(waiting)),
            NativeEffect::Dies => Ok(Outcome::Ends(End::Killed)),
            NativeEffect::Becomes(programmer) => {
                self.frame.call.programmer = programmer;
                self.goes(end, Value::integer(0))
            }
        }
    }

    // What a built-in function answers, whose value may not weigh too much.
    #[inline]
    fn answers(&mut self, alloc: Global, end: usize, answer: Answer) -> Result<Outcome, AllocError>
        ensures led { IfOk result (λ o. (s : Scene) → native_answers_at self.old s end (answer_of answer) ≡ led o s self.new) }
        ensures keeps { IfOk result (λ o. Keeps o self.old self.new) }
    {
        match answer {
            Ok(value) => match limited(value) {
                Ok(value) => self.goes(end, value),
                Err(error) => self.fails(alloc, end, error),
            },
            Err(error) => self.fails(alloc, end, error),
        }
    }
}
