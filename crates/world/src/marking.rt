//! A view of a borrowed world that tells on which objects slots were asked for.
ghost use Rattle.std.specs.Prelude.{◌≡◌, ℤ, [], Contains, IsTrue, option_map, IfOk, OnOk};
ghost use Rattle.std.specs.Option.{unwrap_or};
ghost use Rattle.spec_world.specs.Inherit.{slot_at};
ghost use Rattle.spec_world.specs.Questions.{ask, apply_all, header_at, verbs_at, about_header, about_slot, about_verbs, Agrees};
ghost use Rattle.view.specs.Meanings.{question_of, answer_of};
ghost use Rattle.view.specs.Sound.{IsSound};
ghost use Rattle.world.specs.Marked.{IsOnThese, AreOnThese};
ghost use Rattle.world.specs.Sought.{sought_of};
ghost use Rattle.world.specs.Trace.{IsStart, IsTold, world_now};

use crate::draft::Draft;
use crate::overlay::Overlay;
use crate::questions::Sought;
use crate::trail::Trail;
use crate::worlds::World;
use moo_value::text::Text;
use std::alloc::{AllocError, Global};
use std::marker::Model;
use view::change::Change;
use view::changes::Changes;
use view::law::View;
use view::question::{Answer, Question};
use view::slot::Slot;
use view::verb::Verbs;

// Among so many of the last objects one is looked for before it is told again.
const FEW: usize = 4;

/// A view of a world, which is borrowed and stays as it is. It keeps the changes, and of what was read the objects on which slots were asked for.
pub struct Marking<'w> {
    overlay: Overlay<'w>,
    // The objects, each of them mostly once.
    objects: Vec<i32>,
    // What was asked.
    trail: Trail,
}

// Written out, so that letting go of all that it holds is proved here and not where one is let go.
impl<'w> Drop for Marking<'w> {
    fn drop(self) {
        let Marking {
            overlay: _overlay,
            objects: _objects,
            trail: _trail,
        } = self;
    }
}

impl<'w> Model for Marking<'w> {
    ghost use Rattle.std.specs.Prelude.{map};
    ghost use Rattle.view.specs.Sound.{IsSound};
    ghost use Rattle.world.specs.Marked.{AreOnThese, answered_on};
    ghost use Rattle.world.specs.Trace.{Trace, trace_code};

    ghost Value = { Trace };

    ghost coded = { trace_code };

    ghost view = { λ a. record { home = a.overlay.home; reads = map (answered_on a.overlay.home) a.trail; changes = a.overlay.changes } };

    ghost invariant = { λ a. IsSound a.overlay.home × AreOnThese a.overlay.home (map (answered_on a.overlay.home) a.trail) a.objects.items };
}

impl<'w> Marking<'w> {
    /// A view with nothing read and nothing changed, in the room of changes and of objects that are done with.
    pub fn over(
        alloc: Global,
        world: &'w World,
        changes: Changes,
        mut objects: Vec<i32>,
    ) -> Marking<'w>
        ensures empty { result ≡ record { home = world.now.plain; reads = []; changes = [] } }
        ensures sound { IsSound world.now.plain }
    {
        world.know();
        objects.clear();
        Marking {
            overlay: Overlay::over(alloc, world.records(), changes),
            objects,
            trail: Trail::new(),
        }
    }

    /// What is to change, the records with the changes, where they were made, and the objects on which slots were asked for.
    pub fn finish(self) -> (Changes, Option<Draft>, Vec<i32>)
        ensures changes { result.0 ≡ self.entry.changes }
        ensures fork { unwrap_or result.1 (world_now self.entry self.entry.home) ≡ world_now self.entry self.entry.home }
        ensures objects { AreOnThese self.entry.home self.entry.reads result.2.items }
    {
        let Marking {
            overlay,
            objects,
            trail: _,
        } = self;
        let (changes, fork) = overlay.finish();
        (changes, fork, objects)
    }

    // What is sought is asked.
    #[inline(always)]
    fn note(&mut self, sought: Sought<'_>) -> Result<(), AllocError>
        ensures told { OnOk result (IsTold self.old self.new (sought_of sought.entry)) }
        ensures known { IsSound self.new.home × Agrees self.new.home self.new.reads }
        ensures home { self.new.home ≡ self.old.home }
    {
        mark(&mut self.objects, &sought)?;
        self.trail.add(&sought);
        Ok(())
    }

    // The answer to a question.
    #[inline(always)]
    fn looked_up(&mut self, question: &Question) -> Result<Answer, AllocError>
        ensures told { OnOk result (IsTold self.old self.new (question_of question.now)) }
        ensures answer { IfOk result (λ a. answer_of a ≡ ask (apply_all self.new.changes self.new.home) (question_of question.now)) }
        ensures known { IsSound self.new.home × Agrees self.new.home self.new.reads }
        ensures home { self.new.home ≡ self.old.home }
    {
        self.note(Sought::Question(question))?;
        self.overlay.ask(question)
    }

    // The slot of a property on an object.
    #[inline(always)]
    fn slot_now(&mut self, object: i32, name: &Text) -> Result<Option<Slot>, AllocError>
        ensures told { OnOk result (IsTold self.old self.new (about_slot object name.now)) }
        ensures slot { IfOk result (λ s. s ≡ slot_at (apply_all self.new.changes self.new.home) object name.now) }
        ensures known { IsSound self.new.home × Agrees self.new.home self.new.reads }
        ensures home { self.new.home ≡ self.old.home }
    {
        self.note(Sought::Slot(object, name))?;
        self.overlay.slot(object, name)
    }

    // The parent that an object names.
    #[inline(always)]
    fn parent_now(&mut self, object: i32) -> Result<Option<i32>, AllocError>
        ensures told { OnOk result (IsTold self.old self.new (about_header object)) }
        ensures parent { IfOk result (λ p. p ≡ option_map (λ h. h.parent) (header_at (apply_all self.new.changes self.new.home) object)) }
        ensures known { IsSound self.new.home × Agrees self.new.home self.new.reads }
        ensures home { self.new.home ≡ self.old.home }
    {
        self.note(Sought::Header(object))?;
        Ok(self.overlay.parent(object))
    }

    // An object's own verbs.
    #[inline(always)]
    fn verbs_now(&mut self, object: i32) -> Result<Option<Verbs>, AllocError>
        ensures told { OnOk result (IsTold self.old self.new (about_verbs object)) }
        ensures verbs { IfOk result (λ vs. vs ≡ verbs_at (apply_all self.new.changes self.new.home) object) }
        ensures known { IsSound self.new.home × Agrees self.new.home self.new.reads }
        ensures home { self.new.home ≡ self.old.home }
    {
        self.note(Sought::Verbs(object))?;
        self.overlay.verbs(object).cloned()
    }
}

impl<'w> View for Marking<'w> {
    ghost holds = { IsStart };

    ghost now = { world_now };

    ghost home = { λ t. t.home };

    ghost anchor = { λ _. (0, 0) };

    #[tactic(auto, using(crate::proofs::Goings::stays))]
    fn get(&mut self, question: &Question) -> Result<Answer, AllocError> {
        self.looked_up(question)
    }

    #[tactic(auto, using(crate::proofs::Goings::stays))]
    #[inline(always)]
    fn slot(&mut self, object: i32, name: &Text) -> Result<Option<Slot>, AllocError> {
        self.slot_now(object, name)
    }

    #[tactic(auto, using(crate::proofs::Goings::stays))]
    #[inline(always)]
    fn parent(&mut self, object: i32) -> Result<Option<i32>, AllocError> {
        self.parent_now(object)
    }

    #[tactic(auto, using(crate::proofs::Goings::stays))]
    #[inline(always)]
    fn verbs(&mut self, object: i32) -> Result<Option<Verbs>, AllocError> {
        self.verbs_now(object)
    }

    #[inline(always)]
    fn put(&mut self, change: Change) -> Result<(), AllocError> {
        self.overlay.put(change)
    }
}

// Where a slot is sought, its object is told.
#[inline(always)]
fn mark(objects: &mut Vec<i32>, sought: &Sought<'_>) -> Result<(), AllocError>
    ensures marked { OnOk result (IsOnThese objects.new.items (sought_of sought.now)) }
    ensures stays { (o : ℤ) → Contains objects.old.items o → Contains objects.new.items o }
{
    match sought {
        Sought::Slot(object, _) => add(objects, *object),
        Sought::Question(question) => mark_question(objects, question),
        Sought::Header(_) | Sought::Verbs(_) => Ok(()),
    }
}

// The same of a question.
fn mark_question(objects: &mut Vec<i32>, question: &Question) -> Result<(), AllocError>
    ensures marked { OnOk result (IsOnThese objects.new.items (question_of question.now)) }
    ensures stays { (o : ℤ) → Contains objects.old.items o → Contains objects.new.items o }
{
    match question {
        Question::Slot(object, _) => add(objects, *object),
        _ => Ok(()),
    }
}

// One object more, unless it is among the last ones.
#[inline(always)]
fn add(objects: &mut Vec<i32>, object: i32) -> Result<(), AllocError>
    ensures there { OnOk result (Contains objects.new.items object) }
    ensures stays { (o : ℤ) → Contains objects.old.items o → Contains objects.new.items o }
{
    if is_late(objects.as_slice(), object) {
        return Ok(());
    }
    push(objects, object)
}

// One object more.
#[inline(never)]
fn push(objects: &mut Vec<i32>, object: i32) -> Result<(), AllocError>
    ensures there { OnOk result (Contains objects.new.items object) }
    ensures stays { (o : ℤ) → Contains objects.old.items o → Contains objects.new.items o }
{
    objects.push(object)?;
    Ok(())
}

// Whether an object is among the last ones.
#[inline(always)]
fn is_late(objects: &[i32], object: i32) -> bool
    ensures { IsTrue result → Contains objects.now object }
{
    let mut index = objects.len();
    let first = index.saturating_sub(FEW);
    while index > first {
        index -= 1;
        if is_same(&objects[index], object) {
            return true;
        }
    }
    false
}

#[inline(always)]
fn is_same(other: &i32, object: i32) -> bool
    ensures { IsTrue result → other.now ≡ object }
{
    *other == object
}
