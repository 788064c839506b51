//! Changes over records that stay as they are.
ghost use Rattle.std.specs.Prelude.{◌≡◌, ℤ, [], true, false, Some, None, map, option_map, IsTrue, IsFalse, IfOk, IfSome, MatchOption, OnOk, OnErr};
ghost use Rattle.spec_value.specs.Datum.{Text as Characters, fold_case, integer};
ghost use Rattle.moo_value.specs.Operators.{binary_of};
ghost use Rattle.std.specs.Option.{unwrap_or};
ghost use Rattle.spec_world.specs.World.{World as Plain};
ghost use Rattle.spec_world.specs.Inherit.{slot_at};
ghost use Rattle.spec_world.specs.Questions.{ask, apply, apply_all, header_at, verbs_at};
ghost use Rattle.view.specs.Facets.{DoesLast};
ghost use Rattle.view.specs.Kin.{IsKin, IsCalledVerb, IsCalledAt};
ghost use Rattle.view.specs.Meanings.{question_of, answer_of, change_of};
ghost use Rattle.view.specs.Writing.{MayWrite, GoesFurther, IsReadBy, IsUpdatedBy};
ghost use Rattle.world.specs.Late.{is_light as is_light_change, AllLight};
ghost use Rattle.world.specs.Near.{last_given, value_given, IsNear};
ghost use Rattle.world.specs.Amended.{amended_now};
ghost use Rattle.world.specs.Trace.{AnswersAlike};

use crate::answers::copied;
use crate::called::CalledVerbs;
use crate::draft::Draft;
use crate::late::{answer_after, asked_after, is_light, slot_with};
use crate::near::{Near, NearSlots, integer_at, last_place, lent, value_at};
use moo_arith::integers::of_integers;
use moo_value::operator::BinaryOperator;
use moo_value::text::Text;
use moo_value::value::Value;
use std::alloc::{AllocError, Global};
use std::marker::Model;
use view::change::Change;
use view::changes::Changes;
use view::question::{Answer, Question};
use view::slot::Slot;
use view::verb::{Verb, Verbs};

// So many changes are asked through, one after another, before records are made of them.
const FEW: usize = 16;

/// Changes over the records of a world, its home, which stay as they are.
pub(crate) struct Overlay<'h> {
    home: &'h Draft,
    // The records with the changes. None where these are few and light, so that answers follow without them.
    fork: Option<Draft>,
    // Whether a question may see that there are changes.
    seen: bool,
    changes: Changes,
    // Slots of the home that were asked for, where no records are made of the changes.
    near: NearSlots<'h>,
    // Verbs of the home that were called.
    called: CalledVerbs<'h>,
    alloc: Global,
}

// Written out, so that letting go of all that an overlay holds is proved here and not where a view is let go.
impl<'h> Drop for Overlay<'h> {
    fn drop(self) {
        let Overlay {
            home: _home,
            fork: _fork,
            seen: _seen,
            changes: _changes,
            near: _,
            called: _,
            alloc: _alloc,
        } = self;
    }
}

impl<'h> Model for Overlay<'h> {
    ghost use Rattle.std.specs.Prelude.{◌≡◌, false, None};
    ghost use Rattle.std.specs.Option.{unwrap_or};
    ghost use Rattle.world.specs.Late.{AllLight};
    ghost use Rattle.world.specs.Near.{AreNear};
    ghost use Rattle.world.specs.Called.{AreCalled};
    ghost use Rattle.world.specs.Amended.{Amended, amended_code};
    ghost use Rattle.world.specs.Trace.{AnswersAlike};
    ghost use Rattle.spec_world.specs.Questions.{apply_all};

    ghost Value = { Amended };

    ghost coded = { amended_code };

    ghost view = { λ a. record { home = a.home.now; changes = a.changes } };

    ghost invariant = { λ a. (unwrap_or a.fork (apply_all a.changes a.home.now) ≡ apply_all a.changes a.home.now) × (a.fork ≡ None → AllLight a.changes) × (a.seen ≡ false → AnswersAlike (apply_all a.changes a.home.now) a.home.now) × AreNear a.fork a.home.now a.changes a.near × AreCalled a.home.now a.called };
}

impl<'h> Overlay<'h> {
    /// Nothing changed. The changes that are given go, and leave their room.
    #[inline(always)]
    pub(crate) fn over(alloc: Global, home: &'h Draft, mut changes: Changes) -> Overlay<'h>
        ensures { result ≡ record { home = home.now; changes = [] } }
    {
        changes.clear();
        Overlay {
            home,
            fork: None,
            seen: false,
            changes,
            near: NearSlots::none(),
            called: CalledVerbs::none(),
            alloc,
        }
    }

    /// The changes, and the records with them, where they were made.
    #[inline(always)]
    pub(crate) fn finish(self) -> (Changes, Option<Draft>)
        ensures changes { result.0 ≡ self.entry.changes }
        ensures fork { unwrap_or result.1 (amended_now self.entry) ≡ amended_now self.entry }
    {
        let Overlay {
            home: _,
            fork,
            seen: _,
            changes,
            near: _,
            called: _,
            alloc: _,
        } = self;
        (changes, fork)
    }

    /// The home's answer to a question.
    #[inline(always)]
    pub(crate) fn ask_home(&self, question: &Question) -> Result<Answer, AllocError>
        ensures { IfOk result (λ a. answer_of a ≡ ask self.now.home (question_of question.now)) }
    {
        self.home.ask(question)
    }

    /// The answer now to a question.
    #[inline(always)]
    pub(crate) fn ask(&self, question: &Question) -> Result<Answer, AllocError>
        ensures { IfOk result (λ a. answer_of a ≡ ask (amended_now self.now) (question_of question.now)) }
    {
        if !self.seen {
            return self.home.ask(question);
        }
        match &self.fork {
            Some(draft) => draft.ask(question),
            None => asked_after(self.home, question, self.changes.as_slice()),
        }
    }

    /// The slot now of a property on an object, if there are both. Case is ignored. It is then at hand, unless records are made of the changes.
    #[inline(always)]
    pub(crate) fn slot(&mut self, object: i32, name: &Text) -> Result<Option<Slot>, AllocError>
        ensures stays { self.new ≡ self.old }
        ensures slot { IfOk result (λ s. s ≡ slot_at (amended_now self.old) object name.now) }
    {
        if let Some(draft) = &self.fork {
            return draft.own_slot(object, name);
        }
        let Some(near) = self.nearest(object, name) else {
            return Ok(None);
        };
        self.near.keep(object, name, near);
        let slot = slot_with(near.slot, value_later(&near, self.changes.as_slice()))?;
        Ok(Some(slot))
    }

    // The slot of a property on an object of the home, if there are both, as it comes to hand or is there.
    #[tactic(auto, using(crate::proofs::AtHand::near_folded))]
    #[inline(always)]
    fn nearest(&self, object: i32, name: &Text) -> Option<Near<'h>>
        ensures { MatchOption result (slot_at self.now.home object name.now ≡ None)
            (λ n. (n.object ≡ object) × (fold_case name.now ≡ n.name.now) × IsNear self.now.home self.now.changes n.object n.name.now n.slot.now n.place) }
    {
        if let Some(near) = self.near.row(object, name)
            && near.is_of(object, name)
        {
            return Some(*near);
        }
        near_of(self.home, object, name, self.changes.as_slice())
    }

    /// The value that a slot has now, if the slot is at hand and a programmer owns it or all may read it. Case is ignored.
    #[inline(always)]
    pub(crate) fn value_at_hand(&self, programmer: i32, object: i32, name: &Text) -> Option<&Value>
        ensures { IfSome result (λ v. IsReadBy programmer object name.now v.now (amended_now self.now)) }
    {
        let near = self.near.row(object, name)?;
        let slot = near.slot;
        if !near.is_of(object, name) || !slot.is_read_by(programmer) {
            return None;
        }
        match near.place {
            Some(place) => value_at(self.changes.as_slice(), place),
            None => lent(&slot.content),
        }
    }

    // Where the change stands that gave a slot its value, if the slot is at hand and a programmer owns it or all may write it.
    #[inline(always)]
    fn place_at_hand(&self, programmer: i32, object: i32, name: &Text) -> Option<usize>
        ensures { IfSome result (λ n. MayWrite programmer object name.now (amended_now self.now)
            × (last_given object (fold_case name.now) self.now.changes ≡ Some n)) }
    {
        let near = self.near.row(object, name)?;
        if !near.is_of(object, name) || !near.slot.is_written_by(programmer) {
            return None;
        }
        near.place
    }

    /// The parent now that an object names, if there is the object.
    #[inline(always)]
    #[tactic(auto, using(crate::proofs::Alike::parent_alike, crate::proofs::Alike::parent_lightly))]
    pub(crate) fn parent(&self, object: i32) -> Option<i32>
        ensures { result ≡ option_map (λ h. h.parent) (header_at (amended_now self.now) object) }
    {
        if !self.seen {
            return self.home.parent(object);
        }
        match &self.fork {
            Some(draft) => draft.parent(object),
            // No light change gives an object another parent.
            None => self.home.parent(object),
        }
    }

    /// The verbs now of an object, if there is the object.
    #[inline(always)]
    #[tactic(auto, using(crate::proofs::Alike::verbs_alike, crate::proofs::Alike::verbs_lightly))]
    pub(crate) fn verbs(&self, object: i32) -> Option<&Verbs>
        ensures { option_map (λ v. v.now) result ≡ verbs_at (amended_now self.now) object }
    {
        if !self.seen {
            return self.home.verbs(object);
        }
        match &self.fork {
            Some(draft) => draft.verbs(object),
            // No light change gives an object other verbs.
            None => self.home.verbs(object),
        }
    }

    /// The parent now that an object names, and its own verbs, if there is the object.
    #[inline(always)]
    #[tactic(auto, using(crate::proofs::Alike::kin_lightly))]
    pub(crate) fn kin(&self, object: i32) -> Option<(i32, &Verbs)>
        ensures { IfSome result (λ k. IsKin (amended_now self.now) object k.0 k.1.now) }
    {
        match &self.fork {
            Some(draft) => draft.kin(object),
            // No light change gives an object another parent or other verbs.
            None => {
                let (parent, verbs) = self.home.kin(object)?;
                Some((parent, verbs))
            }
        }
    }

    /// The verb that a word names on an object when code calls it, with the object that it stands on, lent, if it was kept, unless records are made of the changes.
    #[inline(always)]
    pub(crate) fn verb_at_hand(&self, object: i32, word: &Text) -> Option<(i32, &Verb)>
        ensures { IfSome result (λ f. IsCalledVerb (amended_now self.now) object word.now f.0 f.1.now) }
    {
        if self.fork.is_some() {
            return None;
        }
        let found = self.called.get(object, word)?;
        Some((found.definer, found.verb))
    }

    /// Keeps the verb that a word names on an object when code calls it, by where it stands, unless records are made of the changes.
    #[inline(always)]
    pub(crate) fn keep_verb(&mut self, object: i32, word: &Text, definer: i32, place: usize)
        requires { IsCalledAt (amended_now self.old) object word.now definer place }
        ensures { self.new ≡ self.old }
    {
        if self.fork.is_some() {
            return;
        }
        self.called = self.called.with(self.home, object, word, definer, place);
    }

    /// Whether the verb that a word names on an object was marked, if it is kept.
    #[inline(always)]
    pub(crate) fn is_marked(&self, object: i32, word: &Text) -> bool {
        self.called.is_marked(object, word)
    }

    /// The verb that a word names on an object is marked, if it is kept.
    #[inline(always)]
    pub(crate) fn mark_verb(&mut self, object: i32, word: &Text)
        ensures { self.new ≡ self.old }
    {
        self.called = self.called.marked(object, word);
    }

    /// The answer now to a question, to which the home has this answer.
    #[inline(always)]
    pub(crate) fn answer(&self, question: &Question, home: &Answer) -> Result<Answer, AllocError>
        requires { answer_of home.now ≡ ask self.now.home (question_of question.now) }
        ensures { IfOk result (λ a. answer_of a ≡ ask (amended_now self.now) (question_of question.now)) }
    {
        if !self.seen {
            return copied(self.alloc, home);
        }
        match &self.fork {
            Some(draft) => draft.ask(question),
            None => answer_after(self.alloc, question, home, self.changes.as_slice()),
        }
    }

    /// A slot gets another value for a programmer where it lies: in the change that gave it its value, if the slot is at hand, or in the records with the changes, if
    /// they are there; whether it does. Else nothing changes: it does not where there is no such slot, nor where the programmer may not write it, nor where another world
    /// shares the object. After an `Err` nothing is known of the changes.
    #[inline(always)]
    pub(crate) fn write(
        &mut self,
        programmer: i32,
        object: i32,
        name: &Text,
        value: &Value,
    ) -> Result<bool, AllocError>
        ensures home { self.new.home ≡ self.old.home }
        ensures done { IfOk result (λ b. b ≡ true → MayWrite programmer object name.now (amended_now self.old) × GoesFurther object name.now value.now self.old.changes self.new.changes) }
        ensures left { IfOk result (λ b. b ≡ false → self.new ≡ self.old) }
    {
        let done = self.write_at_hand(programmer, object, name, value)?;
        if done {
            return Ok(true);
        }
        self.write_there(programmer, object, name, value)
    }

    /// The same in the change alone.
    #[inline(always)]
    pub(crate) fn write_at_hand(
        &mut self,
        programmer: i32,
        object: i32,
        name: &Text,
        value: &Value,
    ) -> Result<bool, AllocError>
        ensures home { self.new.home ≡ self.old.home }
        ensures done { IfOk result (λ b. b ≡ true → MayWrite programmer object name.now (amended_now self.old) × GoesFurther object name.now value.now self.old.changes self.new.changes) }
        ensures left { IfOk result (λ b. b ≡ false → self.new ≡ self.old) }
    {
        let Some(place) = self.place_at_hand(programmer, object, name) else {
            return Ok(false);
        };
        let value = value.clone()?;
        let done = self.give_again(place, value);
        Ok(done)
    }

    /// The integer of a slot becomes what an operator gives of it and another one, in the change that gave the slot its value, if the slot is at hand, a programmer
    /// owns it or all may read and write it, and the operator gives an integer of the two; which one. Else nothing changes.
    #[inline(always)]
    pub(crate) fn update(
        &mut self,
        programmer: i32,
        object: i32,
        name: &Text,
        operator: BinaryOperator,
        second: i32,
    ) -> Option<i32>
        ensures home { self.new.home ≡ self.old.home }
        ensures updated { IsUpdatedBy programmer object name.now (binary_of operator) second result (amended_now self.old) (amended_now self.new) }
    {
        let (place, first) = self.integer_at_hand(programmer, object, name)?;
        let number = of_integers(operator, first, second)?;
        let done = self.give_again(place, Value::integer(number));
        if done { Some(number) } else { None }
    }

    // Where the change stands that gave a slot its value, and that, if it is an integer, the slot is at hand and a programmer owns it or all may read and write it.
    #[inline(always)]
    fn integer_at_hand(&self, programmer: i32, object: i32, name: &Text) -> Option<(usize, i32)>
        ensures read { IfSome result (λ p. IsReadBy programmer object name.now (integer p.1) (amended_now self.now)) }
        ensures place { IfSome result (λ p. MayWrite programmer object name.now (amended_now self.now) × (last_given object (fold_case name.now) self.now.changes ≡ Some p.0)) }
    {
        let near = self.near.row(object, name)?;
        let slot = near.slot;
        if !near.is_of(object, name)
            || !slot.is_read_by(programmer)
            || !slot.is_written_by(programmer)
        {
            return None;
        }
        let place = near.place?;
        let first = integer_at(self.changes.as_slice(), place)?;
        Some((place, first))
    }

    // A slot to which the change at a place gave its value gets another one by that change, unless records are made of the changes; whether it does.
    #[inline(always)]
    fn give_again(&mut self, place: usize, value: Value) -> bool
        ensures home { self.new.home ≡ self.old.home }
        ensures done { IsTrue result → (o : ℤ) (p : Characters) → last_given o (fold_case p) self.old.changes ≡ Some place → GoesFurther o p value self.old.changes self.new.changes }
        ensures left { IsFalse result → self.new ≡ self.old }
    {
        if self.fork.is_some() {
            return false;
        }
        let done = self.changes.set_value(place, value);
        if done {
            self.seen = true;
        }
        done
    }

    // The same as `write` in the records alone.
    #[inline(never)]
    fn write_there(
        &mut self,
        programmer: i32,
        object: i32,
        name: &Text,
        value: &Value,
    ) -> Result<bool, AllocError>
        ensures home { self.new.home ≡ self.old.home }
        ensures done { IfOk result (λ b. b ≡ true → MayWrite programmer object name.now (amended_now self.old) × GoesFurther object name.now value.now self.old.changes self.new.changes) }
        ensures left { IfOk result (λ b. b ≡ false → self.new ≡ self.old) }
    {
        let Some(draft) = &mut self.fork else {
            return Ok(false);
        };
        let done = draft.write(programmer, object, name, value)?;
        if !done {
            return Ok(false);
        }
        if remember(&mut self.changes, object, name, value).is_err() {
            forget(&mut self.fork, &mut self.changes, self.alloc);
            return Err(AllocError);
        }
        self.seen = true;
        Ok(true)
    }

    /// A change. After an `Err` nothing is known of the changes.
    #[inline(always)]
    #[tactic(auto, using(crate::proofs::History::unseen_last))]
    pub(crate) fn put(&mut self, change: Change) -> Result<(), AllocError>
        ensures home { self.new.home ≡ self.old.home }
        ensures changes { OnOk result (DoesLast (change_of change) self.old.changes self.new.changes) }
    {
        put_on(self.home, &mut self.fork, &self.changes, &change)?;
        self.near = NearSlots::none();
        let seen = self.seen || is_seen(&change);
        let is_forked = self.fork.is_some();
        if add(&mut self.changes, change, is_forked).is_err() {
            forget(&mut self.fork, &mut self.changes, self.alloc);
            return Err(AllocError);
        }
        self.seen = seen;
        Ok(())
    }
}

// The slot of a property on an object of a home, if there are both, and which of some changes gave it its value.
#[inline(always)]
fn near_of<'h>(home: &'h Draft, object: i32, name: &Text, changes: &[Change]) -> Option<Near<'h>>
    ensures { MatchOption result (slot_at home.now object name.now ≡ None)
        (λ n. (n.object ≡ object) × (fold_case name.now ≡ n.name.now) × IsNear home.now (map change_of changes.now) n.object n.name.now n.slot.now n.place) }
{
    let (stored, slot) = home.entry(object, name)?;
    let place = last_place(object, name, changes);
    Some(Near {
        object,
        name: stored,
        slot,
        place,
    })
}

// The value that a slot at hand got by a change, if it got one.
#[inline(always)]
fn value_later<'c>(near: &Near<'_>, changes: &'c [Change]) -> Option<&'c Value>
    ensures { option_map (λ v. v.now) result ≡ value_given (map change_of changes.now) near.now.place }
{
    match near.place {
        Some(place) => value_at(changes, place),
        None => None,
    }
}

// One change more. Where records are made of the changes, it may take the place of an earlier one.
#[inline(always)]
#[tactic(auto, using(crate::proofs::History::pushed_on, crate::proofs::Lightly::light_pushed))]
fn add(changes: &mut Changes, change: Change, is_forked: bool) -> Result<(), AllocError>
    ensures last { OnOk result (DoesLast (change_of change) changes.old changes.new) }
    ensures light { OnOk result (is_forked ≡ false → AllLight changes.old → IsTrue (is_light_change (change_of change)) → AllLight changes.new) }
{
    if is_forked {
        return changes.put(change);
    }
    changes.push(change)
}

// Whether a question may see a change.
#[tactic(auto, using(crate::proofs::History::next_unseen))]
fn is_seen(change: &Change) -> bool
    ensures { result ≡ false → (w : Plain) → AnswersAlike (apply (change_of change.now) w) w }
{
    !matches!(change, Change::Next(_))
}

// Another value in a slot is the last of the changes.
#[inline(always)]
fn remember(
    changes: &mut Changes,
    object: i32,
    name: &Text,
    value: &Value,
) -> Result<(), AllocError>
    ensures { OnOk result (GoesFurther object name.now value.now changes.old changes.new) }
{
    let renewed = changes.renew(object, name, value)?;
    if renewed {
        return Ok(());
    }
    push_value(changes, object, name, value)
}

// The same by another change.
#[inline(never)]
fn push_value(
    changes: &mut Changes,
    object: i32,
    name: &Text,
    value: &Value,
) -> Result<(), AllocError>
    ensures { OnOk result (GoesFurther object name.now value.now changes.old changes.new) }
{
    let name = name.clone()?;
    let value = value.clone()?;
    changes.put(Change::Value(object, name, value))
}

// One change more of a fork of a home, where there is one or it takes one.
#[inline(always)]
fn put_on(
    home: &Draft,
    fork: &mut Option<Draft>,
    changes: &Changes,
    change: &Change,
) -> Result<(), AllocError>
    requires fork { unwrap_or fork.old (apply_all changes.now home.now) ≡ apply_all changes.now home.now }
    requires light { fork.old ≡ None → AllLight changes.now }
    ensures ok { OnOk result (unwrap_or fork.new (apply (change_of change.now) (apply_all changes.now home.now)) ≡ apply (change_of change.now) (apply_all changes.now home.now)) }
    ensures light { OnOk result (fork.new ≡ None → AllLight changes.now × IsTrue (is_light_change (change_of change.now))) }
    ensures err { OnErr result (fork.new ≡ fork.old) }
{
    match fork {
        Some(draft) => draft.put_kept(change),
        None => begin(home, fork, changes, change),
    }
}

// The same where there is none yet: few light changes take none.
#[inline(never)]
fn begin(
    home: &Draft,
    fork: &mut Option<Draft>,
    changes: &Changes,
    change: &Change,
) -> Result<(), AllocError>
    requires none { fork.old ≡ None }
    requires light { AllLight changes.now }
    ensures ok { OnOk result (unwrap_or fork.new (apply (change_of change.now) (apply_all changes.now home.now)) ≡ apply (change_of change.now) (apply_all changes.now home.now)) }
    ensures light { OnOk result (fork.new ≡ None → AllLight changes.now × IsTrue (is_light_change (change_of change.now))) }
    ensures err { OnErr result (fork.new ≡ fork.old) }
{
    if is_light(change) && changes.as_slice().len() < FEW {
        return Ok(());
    }
    let draft = home.changed_by(changes, change)?;
    *fork = Some(draft);
    Ok(())
}

// No change is made, and none is to be.
#[inline(never)]
fn forget(fork: &mut Option<Draft>, changes: &mut Changes, alloc: Global)
    ensures fork { fork.new ≡ None }
    ensures changes { changes.new ≡ [] }
{
    *fork = None;
    *changes = Changes::new(alloc);
}
