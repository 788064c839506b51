//! A view of a snapshot that keeps what was read.
ghost use Rattle.std.specs.Prelude.{◌≡◌, [], Some, IsFalse, option_map, IfSome, IfOk, OnOk, OnErr};
ghost use Rattle.spec_world.specs.Inherit.{slot_at};
ghost use Rattle.spec_world.specs.Questions.{ask, apply, apply_all, header_at, verbs_at, about_header, about_slot, about_verbs, Agrees};
ghost use Rattle.view.specs.Meanings.{question_of, answer_of, change_of};
ghost use Rattle.view.specs.Sound.{IsSound};
ghost use Rattle.view.specs.Law.{Goes, Keeps};
ghost use Rattle.world.specs.Listed.{is_listed as is_listed_question};
ghost use Rattle.world.specs.Sought.{sought_of};
ghost use Rattle.world.specs.Trace.{IsStart, IsTold, world_now};

use crate::asked::Asked;
use crate::noted::Noted;
use crate::overlay::Overlay;
use crate::questions::{Sought, is_listed};
use crate::seen::Seen;
use crate::shared::SharedSnapshot;
use moo_value::text::Text;
use std::alloc::{AllocError, Global};
use std::marker::Model;
use view::change::Change;
use view::changes::Changes;
use view::law::View;
use view::question::{Answer, Question};
use view::slot::Slot;
use view::verb::Verbs;

/// A view of a snapshot. It keeps the questions, whose answers are the snapshot's, and the changes; the snapshot stays as it is.
pub struct Tracked<'s> {
    overlay: Overlay<'s>,
    asked: Asked,
    snapshot: &'s SharedSnapshot,
    // One owner more of the snapshot, as soon as something is asked.
    own: Option<SharedSnapshot>,
    alloc: Global,
}

// Written out, so that letting go of all that it holds is proved here and not where one is let go.
impl<'s> Drop for Tracked<'s> {
    fn drop(self) {
        let Tracked {
            overlay: _overlay,
            asked: _asked,
            snapshot: _snapshot,
            own: _own,
            alloc: _alloc,
        } = self;
    }
}

impl<'s> Model for Tracked<'s> {
    ghost use Rattle.std.specs.Prelude.{◌≡◌, [], None, map, IfSome};
    ghost use Rattle.spec_world.specs.Questions.{Agrees};
    ghost use Rattle.view.specs.Sound.{IsSound};
    ghost use Rattle.world.specs.Seen.{read_on};
    ghost use Rattle.world.specs.Trace.{Trace, trace_code};

    ghost Value = { Trace };

    ghost coded = { trace_code };

    ghost view = { λ a. record { home = a.overlay.home; reads = map (read_on a.overlay.home) a.asked.notes.items; changes = a.overlay.changes } };

    ghost invariant = { λ a. IsSound a.overlay.home × Agrees a.overlay.home (map (read_on a.overlay.home) a.asked.notes.items) × (a.snapshot.now ≡ a.overlay.home) × IfSome a.own (λ s. s ≡ a.snapshot.now) × (a.own ≡ None → a.asked.notes.items ≡ []) };
}

impl<'s> Tracked<'s> {
    /// A view with nothing read and nothing changed.
    pub fn over(alloc: Global, snapshot: &'s SharedSnapshot) -> Tracked<'s>
        ensures empty { result ≡ record { home = snapshot.now; reads = []; changes = [] } }
        ensures sound { IsSound snapshot.now }
    {
        snapshot.know();
        Tracked {
            overlay: Overlay::over(alloc, snapshot.records(), Changes::new(alloc)),
            asked: Asked::new(alloc),
            snapshot,
            own: None,
            alloc,
        }
    }

    /// What was read, and what is to change.
    #[tactic(auto, using(crate::proofs::Found::held))]
    pub fn finish(self) -> (Seen, Changes)
        ensures reads { result.0 ≡ self.entry.reads }
        ensures changes { result.1 ≡ self.entry.changes }
        ensures agrees { Agrees self.entry.home self.entry.reads }
    {
        let Tracked {
            overlay,
            asked,
            snapshot: _,
            own,
            alloc: _,
        } = self;
        let (changes, _fork) = overlay.finish();
        let notes = asked.into_notes();
        (Seen { home: own, notes }, changes)
    }

    // What is sought is asked, unless it was. It is no list.
    #[inline(always)]
    fn note(&mut self, sought: Sought<'_>) -> Result<(), AllocError>
        requires { IsFalse (is_listed_question (sought_of sought)) }
        ensures told { OnOk result (IsTold self.old self.new (sought_of sought.entry)) }
        ensures known { IsSound self.new.home × Agrees self.new.home self.new.reads }
        ensures home { self.new.home ≡ self.old.home }
    {
        let mark = sought.mark();
        match self.asked.find(mark, &sought) {
            Some(_noted) => Ok(()),
            None => self.keep(mark, sought),
        }
    }

    // The same where it was not found.
    #[inline(never)]
    fn keep(&mut self, mark: u64, sought: Sought<'_>) -> Result<(), AllocError>
        requires { IsFalse (is_listed_question (sought_of sought)) }
        ensures told { OnOk result (IsTold self.old self.new (sought_of sought.entry)) }
        ensures known { IsSound self.new.home × Agrees self.new.home self.new.reads }
        ensures home { self.new.home ≡ self.old.home }
    {
        let _known = self.alloc;
        let question = sought.question()?;
        let answer = None;
        hold(&mut self.own, self.snapshot)?;
        self.asked.push(mark, Noted { question, answer })
    }

    // The answer to a question that is no list.
    #[inline(always)]
    #[tactic(auto, using(crate::proofs::Goings::on_ok))]
    fn looked_up(&mut self, question: &Question) -> Result<Answer, AllocError>
        requires { IsFalse (is_listed_question (question_of question.now)) }
        ensures told { OnOk result (IsTold self.old self.new (question_of question.now)) }
        ensures answer { IfOk result (λ a. answer_of a ≡ ask (apply_all self.new.changes self.new.home) (question_of question.now)) }
        ensures known { IsSound self.new.home × Agrees self.new.home self.new.reads }
        ensures home { self.new.home ≡ self.old.home }
    {
        self.note(Sought::Question(question))?;
        self.overlay.ask(question)
    }

    // The answer to a question that is answered by a list.
    #[inline(never)]
    #[tactic(auto, using(crate::proofs::Goings::on_ok))]
    fn listed(&mut self, question: &Question) -> Result<Answer, AllocError>
        ensures told { OnOk result (IsTold self.old self.new (question_of question.now)) }
        ensures answer { IfOk result (λ a. answer_of a ≡ ask (apply_all self.new.changes self.new.home) (question_of question.now)) }
        ensures known { IsSound self.new.home × Agrees self.new.home self.new.reads }
        ensures home { self.new.home ≡ self.old.home }
    {
        let sought = Sought::Question(question);
        let mark = sought.mark();
        match self.asked.answer(mark, &sought) {
            Some(home) => self.overlay.answer(question, home),
            None => self.first(mark, question),
        }
    }

    // The same where it is new. The snapshot's answer is kept.
    fn first(&mut self, mark: u64, question: &Question) -> Result<Answer, AllocError>
        ensures told { OnOk result (IsTold self.old self.new (question_of question.now)) }
        ensures answer { IfOk result (λ a. answer_of a ≡ ask (apply_all self.new.changes self.new.home) (question_of question.now)) }
        ensures known { IsSound self.new.home × Agrees self.new.home self.new.reads }
        ensures home { self.new.home ≡ self.old.home }
    {
        let home = self.overlay.ask_home(question)?;
        let answer = self.overlay.answer(question, &home)?;
        self.keep_listed(mark, question, home)?;
        Ok(answer)
    }

    // A question of this mark is asked, and the snapshot's answer is kept.
    fn keep_listed(
        &mut self,
        mark: u64,
        question: &Question,
        home: Answer,
    ) -> Result<(), AllocError>
        requires { answer_of home ≡ ask self.old.home (question_of question.now) }
        ensures told { OnOk result (IsTold self.old self.new (question_of question.now)) }
        ensures known { IsSound self.new.home × Agrees self.new.home self.new.reads }
        ensures home { self.new.home ≡ self.old.home }
    {
        let alloc = self.alloc;
        let question = question.clone()?;
        let boxed = Box::new(alloc, home)?;
        let answer = Some(boxed);
        hold(&mut self.own, self.snapshot)?;
        self.asked.push(mark, Noted { question, answer })
    }

    // The slot of a property on an object. That it was asked for is kept.
    #[inline(always)]
    #[tactic(auto, using(crate::proofs::Goings::on_ok))]
    fn slot_now(&mut self, object: i32, name: &Text) -> Result<Option<Slot>, AllocError>
        ensures told { OnOk result (IsTold self.old self.new (about_slot object name.now)) }
        ensures slot { IfOk result (λ s. s ≡ slot_at (apply_all self.new.changes self.new.home) object name.now) }
        ensures known { IsSound self.new.home × Agrees self.new.home self.new.reads }
        ensures home { self.new.home ≡ self.old.home }
    {
        self.note(Sought::Slot(object, name))?;
        self.overlay.slot(object, name)
    }

    // The parent that an object names. That its header was asked for is kept.
    #[inline(always)]
    fn parent_now(&mut self, object: i32) -> Result<Option<i32>, AllocError>
        ensures told { OnOk result (IsTold self.old self.new (about_header object)) }
        ensures parent { IfOk result (λ p. p ≡ option_map (λ h. h.parent) (header_at (apply_all self.new.changes self.new.home) object)) }
        ensures known { IsSound self.new.home × Agrees self.new.home self.new.reads }
        ensures home { self.new.home ≡ self.old.home }
    {
        self.note(Sought::Header(object))?;
        Ok(self.overlay.parent(object))
    }

    // An object's own verbs. That they were asked for is kept.
    #[inline(always)]
    #[tactic(auto, using(crate::proofs::Goings::on_ok))]
    fn verbs_now(&mut self, object: i32) -> Result<Option<Verbs>, AllocError>
        ensures told { OnOk result (IsTold self.old self.new (about_verbs object)) }
        ensures verbs { IfOk result (λ vs. vs ≡ verbs_at (apply_all self.new.changes self.new.home) object) }
        ensures known { IsSound self.new.home × Agrees self.new.home self.new.reads }
        ensures home { self.new.home ≡ self.old.home }
    {
        self.note(Sought::Verbs(object))?;
        self.overlay.verbs(object).cloned()
    }
}

impl<'s> View for Tracked<'s> {
    ghost holds = { IsStart };

    ghost now = { world_now };

    ghost home = { λ t. t.home };

    ghost anchor = { λ _. (0, 0) };

    #[tactic(auto, using(crate::proofs::Goings::stays))]
    fn get(&mut self, question: &Question) -> Result<Answer, AllocError> {
        if is_listed(question) {
            self.listed(question)
        } else {
            self.looked_up(question)
        }
    }

    #[tactic(auto, using(crate::proofs::Goings::stays))]
    fn slot(&mut self, object: i32, name: &Text) -> Result<Option<Slot>, AllocError> {
        self.slot_now(object, name)
    }

    #[tactic(auto, using(crate::proofs::Goings::stays))]
    fn parent(&mut self, object: i32) -> Result<Option<i32>, AllocError> {
        self.parent_now(object)
    }

    #[tactic(auto, using(crate::proofs::Goings::stays))]
    fn verbs(&mut self, object: i32) -> Result<Option<Verbs>, AllocError> {
        self.verbs_now(object)
    }

    fn put(&mut self, change: Change) -> Result<(), AllocError> {
        self.overlay.put(change)
    }
}

// The snapshot has one owner more, if this is none yet.
#[inline(always)]
fn hold(own: &mut Option<SharedSnapshot>, snapshot: &SharedSnapshot) -> Result<(), AllocError>
    requires { IfSome own.old (λ s. s ≡ snapshot.now) }
    ensures ok { OnOk result (own.new ≡ Some snapshot.now) }
    ensures err { OnErr result (own.new ≡ own.old) }
{
    if own.is_none() {
        *own = Some(snapshot.clone()?);
    }
    Ok(())
}
