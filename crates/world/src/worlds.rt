//! Worlds and snapshots.
ghost use Rattle.std.specs.Prelude.{◌≡◌, ◌↔◌, ◌+◌, ◌≤◌, ℕ, negsuc, false, [], max, IfOk, OnOk, OnErr, IsTrue};
ghost use Rattle.spec_world.specs.Questions.{ask, Agrees, apply_all};
ghost use Rattle.view.specs.Meanings.{question_of, answer_of};
ghost use Rattle.view.specs.Sound.{IsSound};
ghost use Rattle.world.specs.Besides.{AgreesBesides};
ghost use Rattle.world.specs.Due.{by_moment, due_ids, first_due_from};

use crate::count::Count;
use crate::draft::Draft;
use crate::prepared::Prepared;
use crate::seen::Seen;
use std::alloc::{AllocError, Global};
use std::marker::Model;
use std::snapshot::Snapshot as Remembered;
use view::changes::Changes;
use view::question::{Answer, Question};

/// A world. It is well formed.
#[derive(Drop)]
pub struct World {
    draft: Draft,
    opened: Count,
}

impl Model for World {
    ghost use Rattle.world.specs.Counted.{Counted, counted_code};
    ghost use Rattle.view.specs.Sound.{IsSound};

    ghost Value = { Counted };

    ghost coded = { counted_code };

    ghost view = { λ a. record { plain = a.draft; opened = a.opened } };

    ghost invariant = { λ a. IsSound a.draft };
}

/// What a world was. Its records are shared with that world.
#[derive(Drop)]
pub struct Snapshot {
    draft: Draft,
}

impl Model for Snapshot {
    ghost use Rattle.spec_world.specs.World.{World as Meant};
    ghost use Rattle.spec_world.specs.WorldCode.{world_code};
    ghost use Rattle.view.specs.Sound.{IsSound};

    ghost Value = { Meant };

    ghost coded = { world_code };

    ghost view = { λ a. a.draft };

    ghost invariant = { λ a. IsSound a.draft };
}

impl World {
    /// No objects, tasks and links. The next step is number 1.
    #[tactic(auto, using(crate::proofs::Settled::empty_is_sound))]
    pub fn empty(alloc: Global) -> World
        ensures plain { result.plain ≡ record { objects = []; tasks = []; links = []; greatest = negsuc 0; next = 1; ending = false } }
        ensures opened { result.opened ≡ 0 }
    {
        World {
            draft: Draft::empty(alloc),
            opened: Count::zero(),
        }
    }

    /// A draft as a world.
    pub fn of_draft(draft: Draft) -> World
        requires { IsSound draft }
        ensures plain { result.plain ≡ draft }
        ensures opened { result.opened ≡ 0 }
    {
        World {
            draft,
            opened: Count::zero(),
        }
    }

    /// A world is well formed, with what holds besides until the whole language is there.
    pub fn know(&self)
        ensures { IsSound self.now.plain }
    {
        let _draft = &self.draft;
    }

    /// The answer to a question.
    pub fn ask(&self, question: &Question) -> Result<Answer, AllocError>
        ensures { IfOk result (λ a. answer_of a ≡ ask self.now.plain (question_of question.now)) }
    {
        self.draft.ask(question)
    }

    /// Whether each question that was asked has the answer that was read. It takes no memory.
    pub fn agrees(&self, reads: &Seen) -> bool
        ensures { IsTrue result ↔ Agrees self.now.plain reads.now }
    {
        self.draft.agrees(reads)
    }

    /// Whether each question that was asked, but for those about verbs, has the answer that was read. It takes no memory.
    pub fn agrees_besides(&self, reads: &Seen) -> bool
        ensures { IsTrue result ↔ AgreesBesides self.now.plain reads.now }
    {
        self.draft.agrees_besides(reads)
    }

    /// The number that the next step has.
    pub fn next(&self) -> u64
        ensures { result ≡ self.now.plain.next }
    {
        self.draft.next
    }

    /// The first task of this moment and this id, or after it, in the order in which tasks are due (by their moments, then by their ids), with its moment:
    /// for a caller that takes some at a time. It takes no memory, and looks at no other task.
    pub fn next_due(&self, moment: u32, id: i32) -> Option<(u32, i32)>
        ensures { result ≡ first_due_from moment id (by_moment self.now.plain.tasks) }
    {
        self.draft.next_due(moment, id)
    }

    /// The ids of the tasks that wait for this moment or an earlier one, by their moments and then by their ids. No other task is looked at.
    pub fn due(&self, alloc: Global, moment: u32) -> Result<Vec<i32>, AllocError>
        ensures { IfOk result (λ ids. ids.items ≡ due_ids moment self.now.plain.tasks) }
    {
        let ids = self.draft.due(alloc, moment)?;
        Ok(ids)
    }

    /// The world as it is, to be kept. Nothing is copied.
    #[inline(always)]
    pub fn snapshot(&self) -> Result<Snapshot, AllocError>
        ensures { IfOk result (λ s. s ≡ self.now.plain) }
    {
        Ok(Snapshot {
            draft: self.draft.share()?,
        })
    }

    /// The world with changes that leave it sound, made ready.
    pub fn prepare(&self, changes: &Changes) -> Result<Prepared, AllocError>
        requires { IsSound (apply_all changes.now self.now.plain) }
        ensures { IfOk result (λ p. p ≡ record { before = self.now.plain; after = apply_all changes.now self.now.plain }) }
    {
        let draft = self.changed(changes)?;
        Ok(Prepared {
            before: Remembered::of(&self.draft),
            draft,
        })
    }

    /// The world has changes that leave it sound. What no snapshot shares is changed where it lies. After want of memory nothing has changed.
    pub fn change(&mut self, changes: &Changes) -> Result<(), AllocError>
        requires { IsSound (apply_all changes.now self.old.plain) }
        ensures ok { OnOk result (self.new ≡ record { plain = apply_all changes.now self.old.plain; opened = self.old.opened }) }
        ensures err { OnErr result (self.new ≡ self.old) }
    {
        match self.draft.change(changes) {
            Ok(()) => Ok(()),
            Err(error) => Err(error),
        }
    }

    /// The world, which is as it was when they were made ready, has the changes. It takes no memory.
    pub fn commit(&mut self, prepared: Prepared)
        requires { prepared.before ≡ self.old.plain }
        ensures plain { self.new.plain ≡ prepared.after }
        ensures opened { self.new.opened ≡ self.old.opened }
    {
        let Prepared { before: _, draft } = prepared;
        self.replace(draft);
    }

    /// Other records for the world, which make it sound.
    pub fn replace(&mut self, draft: Draft)
        requires { IsSound draft }
        ensures plain { self.new.plain ≡ draft }
        ensures opened { self.new.opened ≡ self.old.opened }
    {
        self.draft = draft;
    }

    /// The world is not about to end any more.
    pub fn reopen(&mut self)
        ensures plain { self.new.plain ≡ record (self.old.plain) { ending = false } }
        ensures opened { self.new.opened ≡ self.old.opened }
    {
        self.draft.reopen();
    }

    /// A fork was opened to change the world.
    pub(crate) fn open(&mut self)
        ensures plain { self.new.plain ≡ self.old.plain }
        ensures opened { self.new.opened ≡ self.old.opened + 1 }
    {
        self.opened.tick();
    }

    /// The records of the world with changes.
    pub(crate) fn changed(&self, changes: &Changes) -> Result<Draft, AllocError>
        ensures { IfOk result (λ d. d ≡ apply_all changes.now self.now.plain) }
    {
        self.draft.changed(changes)
    }

    /// The records.
    #[inline(always)]
    pub(crate) fn records(&self) -> &Draft
        ensures { result.now ≡ self.now.plain }
    {
        &self.draft
    }

    /// The records of the world, with one more owner.
    #[inline(always)]
    pub(crate) fn share(&self) -> Result<Draft, AllocError>
        ensures { IfOk result (λ d. d ≡ self.now.plain) }
    {
        self.draft.share()
    }
}

impl Snapshot {
    /// A snapshot is well formed, with what holds besides until the whole language is there.
    pub fn know(&self)
        ensures { IsSound self.now }
    {
        let _draft = &self.draft;
    }

    /// The answer to a question.
    pub fn ask(&self, question: &Question) -> Result<Answer, AllocError>
        ensures { IfOk result (λ a. answer_of a ≡ ask self.now (question_of question.now)) }
    {
        self.draft.ask(question)
    }

    /// Whether two snapshots are of the same world. It takes no memory.
    pub fn same_world(&self, other: &Snapshot) -> bool
        ensures { IsTrue result ↔ self.now ≡ other.now }
    {
        self.draft.same(&other.draft)
    }

    /// The records of the snapshot, with one more owner.
    #[inline(always)]
    pub fn share(&self) -> Result<Draft, AllocError>
        ensures { IfOk result (λ d. d ≡ self.now) }
    {
        self.draft.share()
    }

    /// The records.
    #[inline(always)]
    pub(crate) fn records(&self) -> &Draft
        ensures { result.now ≡ self.now }
    {
        &self.draft
    }

    /// The snapshot as a world of its own.
    pub fn into_world(self) -> World
        ensures plain { result.plain ≡ self }
        ensures opened { result.opened ≡ 0 }
    {
        let Snapshot { draft } = self;
        World {
            draft,
            opened: Count::zero(),
        }
    }
}
