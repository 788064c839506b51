//! A world with changes that are kept or forgotten at their end.
ghost use Rattle.std.specs.Prelude.{◌≡◌, ◌+◌, IfOk, IfSome, OnOk, OnErr};
ghost use Rattle.spec_world.specs.Questions.{ask, apply, apply_all};
ghost use Rattle.view.specs.Meanings.{question_of, answer_of, change_of};
ghost use Rattle.view.specs.Sound.{IsSound};
ghost use Rattle.world.specs.Forks.{start_of, changed_in, borrow_of, IsKeepable};

use crate::draft::Draft;
use crate::worlds::World;
use std::alloc::AllocError;
use view::change::Change;
use view::changes::Changes;
use view::question::{Answer, Question};

/// The changes stand in a fork of the world's records until they are kept. Dropped, it leaves the world as it was.
pub struct Forked<'w, T> {
    world: &'w mut World,
    fork: Option<T>,
}

/// A fork of a world.
pub type Fork<'w> = Forked<'w, Draft>;

impl<T: Drop> Drop for Forked<'_, T> {
    fn drop(self)
        ensures { self.exit.0.now ≡ self.entry.world.now }
    {
        let Forked { world: _, fork: _ } = self;
    }
}

impl<'w> Forked<'w, Draft> {
    /// A fork of a world. The world counts it. It can be kept, as a world is sound by its type.
    pub fn open(world: &'w mut World) -> Forked<'w, Draft>
        ensures same_reference { borrow_of result ≡ world.entry.ghost_name }
        ensures start { start_of result ≡ record { plain = world.old.plain; opened = world.old.opened + 1 } }
        ensures unchanged { changed_in result ≡ world.old.plain }
        ensures sound { IsSound (changed_in result) }
    {
        world.know();
        world.open();
        Forked { world, fork: None }
    }

    /// The records, with the changes.
    #[inline(always)]
    pub(crate) fn records(&self) -> &Draft
        ensures { result.now ≡ changed_in self.now }
    {
        match &self.fork {
            Some(draft) => draft,
            None => self.world.records(),
        }
    }

    /// The answer to a question, with the changes.
    pub fn ask(&self, question: &Question) -> Result<Answer, AllocError>
        ensures { IfOk result (λ a. answer_of a ≡ ask (changed_in self.now) (question_of question.now)) }
    {
        self.records().ask(question)
    }

    /// One change more.
    pub fn put(&mut self, change: Change) -> Result<(), AllocError>
        ensures same_reference { borrow_of self.new ≡ borrow_of self.old }
        ensures start { start_of self.new ≡ start_of self.old }
        ensures changed { OnOk result (changed_in self.new ≡ apply (change_of change) (changed_in self.old)) }
    {
        if self.fork.is_none() {
            self.fork = Some(self.world.share()?);
        }
        if let Some(draft) = &mut self.fork {
            draft.put(change)?;
        }
        Ok(())
    }

    /// The world has the changes.
    pub fn keep(self)
        requires { IsKeepable self }
        ensures plain { self.exit.0.now.plain ≡ changed_in self.entry }
        ensures opened { self.exit.0.now.opened ≡ (start_of self.entry).opened }
    {
        let Forked { world, fork } = self;
        if let Some(draft) = fork {
            world.replace(draft);
        }
    }

    /// The world has changes more, one after another, which these records have too, where they were made. What no snapshot shares is changed where it lies.
    /// After want of memory the world is as it was.
    pub fn keep_with(self, changes: &Changes, after: Option<Draft>) -> Result<(), AllocError>
        requires sound { IsSound (apply_all changes.now (changed_in self)) }
        requires after { IfSome after (λ d. d ≡ apply_all changes.now (changed_in self)) }
        ensures plain { OnOk result (self.exit.0.now.plain ≡ apply_all changes.now (changed_in self.entry)) }
        ensures err { OnErr result (self.exit.0.now.plain ≡ (start_of self.entry).plain) }
        ensures opened { self.exit.0.now.opened ≡ (start_of self.entry).opened }
    {
        let Forked { world, fork } = self;
        if let Some(draft) = after {
            world.replace(draft);
            return Ok(());
        }
        match fork {
            Some(draft) => change_over(world, draft, changes),
            None => world.change(changes),
        }
    }

    /// The world is as it was.
    pub fn undo(self)
        ensures { self.exit.0.now ≡ start_of self.entry }
    {}
}

// The world has these records with changes. After want of memory it is as it was.
fn change_over(world: &mut World, mut draft: Draft, changes: &Changes) -> Result<(), AllocError>
    requires { IsSound (apply_all changes.now draft) }
    ensures ok { OnOk result (world.new ≡ record { plain = apply_all changes.now draft; opened = world.old.opened }) }
    ensures err { OnErr result (world.new ≡ world.old) }
{
    draft.change(changes)?;
    world.replace(draft);
    Ok(())
}
