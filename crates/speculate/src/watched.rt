//! A tracked view that tells on which objects slots were asked for.
ghost use Rattle.std.specs.Prelude.{◌≡◌, [], IfOk};
ghost use Rattle.spec_world.specs.Questions.{Agrees};
ghost use Rattle.view.specs.Sound.{IsSound};
ghost use Rattle.speculate.specs.Fresh.{Covers};

use crate::slots_read::SlotsRead;
use moo_value::text::Text;
use std::alloc::{AllocError, Global};
use std::marker::Model;
use view::change::Change;
use view::changes::Changes;
use view::law::View;
use view::question::{Answer, Question};
use view::slot::Slot;
use view::verb::Verbs;
use world::seen::Seen;
use world::shared::SharedSnapshot;
use world::tracked::Tracked;

/// A tracked view of a snapshot, and the objects on which slots were asked for.
pub(crate) struct Watched<'s> {
    view: Tracked<'s>,
    slots: SlotsRead,
    // Whether a call came to no end.
    failed: bool,
}

// Written out, so that letting go of all that a view holds is proved here and not where one is let go.
impl<'s> Drop for Watched<'s> {
    fn drop(self) {
        let Watched {
            view: _view,
            slots: _slots,
            failed: _failed,
        } = self;
    }
}

impl<'s> Model for Watched<'s> {
    ghost use Rattle.std.specs.Prelude.{◌≡◌, false};
    ghost use Rattle.world.specs.Trace.{Trace, trace_code};
    ghost use Rattle.view.specs.Sound.{IsSound};
    ghost use Rattle.speculate.specs.Fresh.{Covers};

    ghost Value = { Trace };

    ghost coded = { trace_code };

    ghost view = { λ a. a.view };

    ghost invariant = { λ a. IsSound a.view.home × (a.failed ≡ false → Covers a.view.home a.view.reads a.slots) };
}

impl<'s> Watched<'s> {
    /// A view with nothing read and nothing changed.
    pub(crate) fn over(alloc: Global, snapshot: &'s SharedSnapshot) -> Watched<'s>
        ensures empty { result ≡ record { home = snapshot.now; reads = []; changes = [] } }
        ensures sound { IsSound snapshot.now }
    {
        Watched {
            view: Tracked::over(alloc, snapshot),
            slots: SlotsRead::none(),
            failed: false,
        }
    }

    /// What was read, what is to change, and the objects on which slots were asked for. None after a call that came to no end.
    pub(crate) fn finish(self) -> Result<(Seen, Changes, SlotsRead), AllocError>
        ensures reads { IfOk result (λ r. r.0 ≡ self.entry.reads) }
        ensures changes { IfOk result (λ r. r.1 ≡ self.entry.changes) }
        ensures agrees { IfOk result (λ r. Agrees self.entry.home self.entry.reads) }
        ensures covers { IfOk result (λ r. Covers self.entry.home self.entry.reads r.2) }
    {
        let Watched {
            view,
            slots,
            failed,
        } = self;
        if failed {
            return Err(AllocError);
        }
        let (reads, changes) = view.finish();
        Ok((reads, changes, slots))
    }
}

impl<'s> View for Watched<'s> {
    ghost use Rattle.world.specs.Trace.{IsStart, world_now};

    ghost holds = { IsStart };

    ghost now = { world_now };

    ghost home = { λ t. t.home };

    ghost anchor = { λ _. (0, 0) };

    fn get(&mut self, question: &Question) -> Result<Answer, AllocError> {
        let failed = self.failed;
        self.failed = true;
        self.slots.watch(question);
        let answer = self.view.get(question)?;
        self.failed = failed;
        Ok(answer)
    }

    fn slot(&mut self, object: i32, name: &Text) -> Result<Option<Slot>, AllocError> {
        let failed = self.failed;
        self.failed = true;
        self.slots.add(object);
        let slot = self.view.slot(object, name)?;
        self.failed = failed;
        Ok(slot)
    }

    fn parent(&mut self, object: i32) -> Result<Option<i32>, AllocError> {
        let failed = self.failed;
        self.failed = true;
        let parent = self.view.parent(object)?;
        self.failed = failed;
        Ok(parent)
    }

    fn verbs(&mut self, object: i32) -> Result<Option<Verbs>, AllocError> {
        let failed = self.failed;
        self.failed = true;
        let verbs = self.view.verbs(object)?;
        self.failed = failed;
        Ok(verbs)
    }

    fn put(&mut self, change: Change) -> Result<(), AllocError> {
        let failed = self.failed;
        self.failed = true;
        self.view.put(change)?;
        self.failed = failed;
        Ok(())
    }
}
