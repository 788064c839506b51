//! What a view promises.
ghost use Rattle.std.specs.Prelude.{◌≡◌, ℕ, option_map, IfOk, IfSome, OnOk};
ghost use Rattle.spec_world.specs.World.{World};
ghost use Rattle.spec_world.specs.Inherit.{slot_at};
ghost use Rattle.spec_world.specs.Questions.{ask, apply, header_at, verbs_at, about_header, about_slot, about_verbs};
ghost use Rattle.view.specs.Meanings.{question_of, answer_of, change_of};
ghost use Rattle.view.specs.Law.{Goes, Keeps, Lasts, Tells};
ghost use Rattle.view.specs.Kin.{IsKin, IsCalledVerb, IsCalledAt};
ghost use Rattle.view.specs.Writing.{IsReadBy, IsWrittenBy, IsUpdatedBy};
ghost use Rattle.moo_value.specs.Operators.{binary_of};

use crate::change::Change;
use crate::question::{Answer, Question};
use crate::slot::Slot;
use crate::verb::{Verb, Verbs};
use moo_value::operator::BinaryOperator;
use moo_value::text::Text;
use moo_value::value::Value;
use std::alloc::AllocError;

/// A world that a step reads and changes.
///
/// A view stands for pairs of worlds: the one at its start, and the one now. Some of the worlds that the start may have been
/// go as answers come in, but never the one that the answers come from, its home.
pub trait View {
    /// The worlds that the start may have been.
    ghost holds: { Self → World → Type 0 };

    /// The world now, for a start.
    ghost now: { Self → World → World };

    /// The start that the answers come from.
    ghost home: { Self → World };

    /// The borrow in which the view lies, if it lies in one, and how many views were opened there.
    ghost anchor: { Self → ℕ × ℕ };

    /// The answer to a question. After an `Err` the view is only to be dropped or undone.
    fn get(&mut self, question: &Question) -> Result<Answer, AllocError>
        ensures lasts { Lasts holds home anchor self.old self.new result }
        ensures answer { IfOk result (λ a. answer_of a ≡ ask (now self.old (home self.old)) (question_of question.now)) }
        ensures left { IfOk result (λ a. Tells holds now self.old self.new (λ w. ask w (question_of question.now) ≡ answer_of a)) }

        // A start that gives the home's answer, at its start and now, stays.
        ensures kept { IfOk result (λ a. (w : World) → holds self.old w →
            ask w (question_of question.now) ≡ ask (home self.old) (question_of question.now) →
            ask (now self.old w) (question_of question.now) ≡ answer_of a → holds self.new w) };

    /// A property's slot on an object, or None where there is none, as `get` answers. Case is ignored. A view that has it at hand need make no
    /// question for it.
    #[tactic(auto, using(crate::proofs::SlotsTold::slot_told, crate::proofs::SlotsTold::no_object_told))]
    #[inline(always)]
    fn slot(&mut self, object: i32, name: &Text) -> Result<Option<Slot>, AllocError>
        ensures lasts { Lasts holds home anchor self.old self.new result }
        ensures left { IfOk result (λ s. Tells holds now self.old self.new (λ w. slot_at w object name.now ≡ s)) }

        // A start that gives the home's answer to the question for this slot, at its start and now, stays.
        ensures kept { OnOk result ((w : World) → holds self.old w →
            ask w (about_slot object name.now) ≡ ask (home self.old) (about_slot object name.now) →
            ask (now self.old w) (about_slot object name.now) ≡ ask (now self.old (home self.old)) (about_slot object name.now) → holds self.new w) }
    {
        match self.get(&Question::Slot(object, name.clone()?))? {
            Answer::Slot(Some(slot)) => Ok(slot),
            Answer::Slot(None) => Ok(None),
            _ => unreachable!(),
        }
    }

    /// The value of a slot that a programmer owns or that all may read, and that no property that every object has hides, if the view has it at hand, lent. It takes
    /// no question. Case is ignored.
    #[inline(always)]
    fn value_at_hand(&self, _programmer: i32, _object: i32, _name: &Text) -> Option<&Value>
        ensures { IfSome result (λ v. (w : World) → holds self.now w → IsReadBy _programmer _object _name.now v.now (now self.now w)) }
    {
        None
    }

    /// The parent that an object names, or None where there is no such object, as `get` answers. A negative number names none.
    #[inline(always)]
    fn parent(&mut self, object: i32) -> Result<Option<i32>, AllocError>
        ensures lasts { Lasts holds home anchor self.old self.new result }
        ensures left { IfOk result (λ p. Tells holds now self.old self.new (λ w. option_map (λ h. h.parent) (header_at w object) ≡ p)) }

        // A start that gives the home's answer to the question for this header, at its start and now, stays.
        ensures kept { OnOk result ((w : World) → holds self.old w →
            ask w (about_header object) ≡ ask (home self.old) (about_header object) →
            ask (now self.old w) (about_header object) ≡ ask (now self.old (home self.old)) (about_header object) → holds self.new w) }
    {
        match self.get(&Question::Header(object))? {
            Answer::Header(Some(header)) => Ok(Some(header.parent)),
            Answer::Header(None) => Ok(None),
            _ => unreachable!(),
        }
    }

    /// An object's own verbs, or None where there is no such object, as `get` answers.
    #[inline(always)]
    fn verbs(&mut self, object: i32) -> Result<Option<Verbs>, AllocError>
        ensures lasts { Lasts holds home anchor self.old self.new result }
        ensures left { IfOk result (λ vs. Tells holds now self.old self.new (λ w. verbs_at w object ≡ vs)) }

        // A start that gives the home's answer to the question for these verbs, at its start and now, stays.
        ensures kept { OnOk result ((w : World) → holds self.old w →
            ask w (about_verbs object) ≡ ask (home self.old) (about_verbs object) →
            ask (now self.old w) (about_verbs object) ≡ ask (now self.old (home self.old)) (about_verbs object) → holds self.new w) }
    {
        match self.get(&Question::Verbs(object))? {
            Answer::Verbs(verbs) => Ok(verbs),
            _ => unreachable!(),
        }
    }

    /// The parent that an object names, and its own verbs, lent, if there is the object and the view has both at hand. It takes no question.
    #[inline(always)]
    fn kin_at_hand(&self, _object: i32) -> Option<(i32, &Verbs)>
        ensures { IfSome result (λ k. (w : World) → holds self.now w → IsKin (now self.now w) _object k.0 k.1.now) }
    {
        None
    }

    /// The verb that a word names on an object when code calls it, and the object that it stands on, lent, if the view keeps that at hand. It takes no question.
    #[inline(always)]
    fn verb_at_hand(&self, _object: i32, _word: &Text) -> Option<(i32, &Verb)>
        ensures { IfSome result (λ f. (w : World) → holds self.now w → IsCalledVerb (now self.now w) _object _word.now f.0 f.1.now) }
    {
        None
    }

    /// A view may keep the verb that a word names on an object when code calls it, by where it stands.
    #[inline(always)]
    fn keep_verb(&mut self, _object: i32, _word: &Text, _definer: i32, _place: usize)
        requires { (w : World) → holds self.old w → IsCalledAt (now self.old w) _object _word.now _definer _place }
        ensures { self.new ≡ self.old }
    {}

    /// Whether the verb that a word names on an object, which the view keeps at hand, was marked by who called it.
    #[inline(always)]
    fn is_marked(&self, _object: i32, _word: &Text) -> bool {
        false
    }

    /// The verb that a word names on an object is marked, if the view keeps it at hand. A view may forget that.
    #[inline(always)]
    fn mark_verb(&mut self, _object: i32, _word: &Text)
        ensures { self.new ≡ self.old }
    {}

    /// A property's slot on an object gets another value for a programmer, if there is the slot and the programmer owns it or all may write it; whether it
    /// did. Else nothing changes. Case is ignored. A view that has the slot at hand looks for it but once.
    #[inline(always)]
    fn write(
        &mut self,
        programmer: i32,
        object: i32,
        name: &Text,
        value: &Value,
    ) -> Result<bool, AllocError>
        ensures lasts { Lasts holds home anchor self.old self.new result }
        ensures left { IfOk result (λ b. Goes holds now self.old self.new (IsWrittenBy programmer object name.now value.now b)) }

        // A start that gives the home's answer to the question for this slot, at its start and now, stays.
        ensures kept { OnOk result ((w : World) → holds self.old w →
            ask w (about_slot object name.now) ≡ ask (home self.old) (about_slot object name.now) →
            ask (now self.old w) (about_slot object name.now) ≡ ask (now self.old (home self.old)) (about_slot object name.now) → holds self.new w) }
    {
        let Some(slot) = self.slot(object, name)? else {
            return Ok(false);
        };
        let allowed = slot.is_written_by(programmer);
        if !allowed {
            return Ok(false);
        }
        let name = name.clone()?;
        let value = value.clone()?;
        self.put(Change::Value(object, name, value))?;
        Ok(true)
    }

    /// The integer that a property's slot on an object holds becomes what an operator gives of it and another one, if the view has the slot at hand, the programmer
    /// owns it or all may read and write it, no property that every object has hides it, and the operator gives an integer of the two; which one. Else nothing
    /// changes. It takes no question. Case is ignored.
    #[inline(always)]
    fn update_at_hand(
        &mut self,
        _programmer: i32,
        _object: i32,
        _name: &Text,
        _operator: BinaryOperator,
        _second: i32,
    ) -> Result<Option<i32>, AllocError>
        requires { holds self.old (home self.old) }
        ensures lasts { Lasts holds home anchor self.old self.new result }
        ensures left { IfOk result (λ n. Goes holds now self.old self.new (IsUpdatedBy _programmer _object _name.now (binary_of _operator) _second n)) }
    {
        Ok(None)
    }

    /// A change. After an `Err` the view is only to be dropped or undone.
    fn put(&mut self, change: Change) -> Result<(), AllocError>
        ensures lasts { Lasts holds home anchor self.old self.new result }
        ensures left { OnOk result (Goes holds now self.old self.new (λ before after. after ≡ apply (change_of change) before)) }
        ensures kept { OnOk result (Keeps holds self.old self.new) };
}
