//! A view of a world that nobody else changes meanwhile.
ghost use Rattle.std.specs.Prelude.{◌≡◌, true, false, [], IfOk, OnOk};
ghost use Rattle.std.specs.Option.{unwrap_or};
ghost use Rattle.spec_world.specs.Questions.{ask, apply, apply_all};
ghost use Rattle.view.specs.Meanings.{question_of, answer_of, change_of};
ghost use Rattle.view.specs.Sound.{IsSound};
ghost use Rattle.view.specs.Law.{Goes, Keeps};
ghost use Rattle.view.specs.Writing.{IsWrittenBy};
ghost use Rattle.world.specs.Amended.{amended_now};

use crate::draft::Draft;
use crate::overlay::Overlay;
use crate::worlds::World;
use moo_value::operator::BinaryOperator;
use moo_value::text::Text;
use moo_value::value::Value;
use std::alloc::{AllocError, Global};
use std::marker::Model;
use view::change::Change;
use view::changes::Changes;
use view::law::View;
use view::question::{Answer, Question};
use view::slot::Slot;
use view::verb::{Verb, Verbs};

/// A view of a world, which is borrowed and stays as it is. It keeps the changes, and nothing of what was read.
pub struct Alone<'w> {
    overlay: Overlay<'w>,
}

// Written out, so that letting go of all that it holds is proved here and not where one is let go.
impl<'w> Drop for Alone<'w> {
    fn drop(self) {
        let Alone { overlay: _overlay } = self;
    }
}

impl<'w> Model for Alone<'w> {
    ghost use Rattle.world.specs.Amended.{Amended, amended_code};

    ghost Value = { Amended };

    ghost coded = { amended_code };

    ghost view = { λ a. a.overlay };
}

impl<'w> Alone<'w> {
    /// A view with nothing changed, in the room of changes that are done with.
    #[inline(always)]
    pub fn over(alloc: Global, world: &'w World, room: Changes) -> Alone<'w>
        ensures empty { result ≡ record { home = world.now.plain; changes = [] } }
        ensures sound { IsSound world.now.plain }
    {
        world.know();
        Alone {
            overlay: Overlay::over(alloc, world.records(), room),
        }
    }

    /// What is to change, and the records with the changes, where they were made.
    #[inline(always)]
    pub fn finish(self) -> (Changes, Option<Draft>)
        ensures changes { result.0 ≡ self.entry.changes }
        ensures fork { unwrap_or result.1 (apply_all self.entry.changes self.entry.home) ≡ apply_all self.entry.changes self.entry.home }
    {
        let Alone { overlay } = self;
        overlay.finish()
    }

    // A slot gets another value for a programmer where it lies, in a change or in the records with the changes, if it is at hand there.
    #[inline(always)]
    #[tactic(auto, using(crate::proofs::Written::further_written))]
    fn write_there(
        &mut self,
        programmer: i32,
        object: i32,
        name: &Text,
        value: &Value,
    ) -> Result<bool, AllocError>
        ensures home { self.new.home ≡ self.old.home }
        ensures done { IfOk result (λ b. b ≡ true → IsWrittenBy programmer object name.now value.now true (amended_now self.old) (amended_now self.new)) }
        ensures left { IfOk result (λ b. b ≡ false → self.new ≡ self.old) }
    {
        self.overlay.write(programmer, object, name, value)
    }

    // The same by a change.
    #[inline(never)]
    fn write_anew(
        &mut self,
        programmer: i32,
        object: i32,
        name: &Text,
        value: &Value,
    ) -> Result<bool, AllocError>
        ensures home { self.new.home ≡ self.old.home }
        ensures now { IfOk result (λ b. IsWrittenBy programmer object name.now value.now b (amended_now self.old) (amended_now self.new)) }
    {
        let Some(slot) = self.overlay.slot(object, name)? else {
            return Ok(false);
        };
        let allowed = slot.is_written_by(programmer);
        if !allowed {
            return Ok(false);
        }
        let done = self.overlay.write_at_hand(programmer, object, name, value)?;
        if done {
            return Ok(true);
        }
        let name = name.clone()?;
        let value = value.clone()?;
        self.overlay.put(Change::Value(object, name, value))?;
        Ok(true)
    }
}

impl<'w> View for Alone<'w> {
    ghost holds = { λ a w. w ≡ a.home };

    ghost now = { λ a _. amended_now a };

    ghost home = { λ a. a.home };

    ghost anchor = { λ _. (0, 0) };

    fn get(&mut self, question: &Question) -> Result<Answer, AllocError> {
        self.overlay.ask(question)
    }

    #[inline(always)]
    fn slot(&mut self, object: i32, name: &Text) -> Result<Option<Slot>, AllocError> {
        self.overlay.slot(object, name)
    }

    #[inline(always)]
    fn value_at_hand(&self, programmer: i32, object: i32, name: &Text) -> Option<&Value> {
        self.overlay.value_at_hand(programmer, object, name)
    }

    #[inline(always)]
    fn kin_at_hand(&self, object: i32) -> Option<(i32, &Verbs)> {
        self.overlay.kin(object)
    }

    #[inline(always)]
    fn verb_at_hand(&self, object: i32, word: &Text) -> Option<(i32, &Verb)> {
        self.overlay.verb_at_hand(object, word)
    }

    #[inline(always)]
    fn keep_verb(&mut self, object: i32, word: &Text, definer: i32, place: usize) {
        self.overlay.keep_verb(object, word, definer, place)
    }

    #[inline(always)]
    fn is_marked(&self, object: i32, word: &Text) -> bool {
        self.overlay.is_marked(object, word)
    }

    #[inline(always)]
    fn mark_verb(&mut self, object: i32, word: &Text) {
        self.overlay.mark_verb(object, word)
    }

    #[inline(always)]
    fn write(
        &mut self,
        programmer: i32,
        object: i32,
        name: &Text,
        value: &Value,
    ) -> Result<bool, AllocError> {
        let done = self.write_there(programmer, object, name, value)?;
        if done {
            return Ok(true);
        }
        self.write_anew(programmer, object, name, value)
    }

    #[inline(always)]
    fn update_at_hand(
        &mut self,
        programmer: i32,
        object: i32,
        name: &Text,
        operator: BinaryOperator,
        second: i32,
    ) -> Result<Option<i32>, AllocError> {
        Ok(
            self.overlay
                .update(programmer, object, name, operator, second),
        )
    }

    fn parent(&mut self, object: i32) -> Result<Option<i32>, AllocError> {
        Ok(self.overlay.parent(object))
    }

    #[inline(always)]
    fn verbs(&mut self, object: i32) -> Result<Option<Verbs>, AllocError> {
        self.overlay.verbs(object).cloned()
    }

    #[tactic(auto, using(crate::proofs::History::amended_last))]
    #[inline(always)]
    fn put(&mut self, change: Change) -> Result<(), AllocError> {
        self.overlay.put(change)
    }
}
