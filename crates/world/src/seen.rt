//! What was read of a snapshot.
ghost use Rattle.std.specs.Prelude.{◌≡◌, [], map, MatchOption};
ghost use Rattle.world.specs.Seen.{read_on};

use crate::draft::Draft;
use crate::noted::Noted;
use crate::shared::SharedSnapshot;
use std::marker::Model;

/// What was read of a snapshot: the questions, in the order in which they were asked, and the snapshot, which has their answers. So no answer has one more
/// owner because it was read. Where nothing was asked, there is no snapshot.
#[derive(Drop)]
pub struct Seen {
    pub(crate) home: Option<SharedSnapshot>,
    pub(crate) notes: Vec<Noted>,
}

impl Model for Seen {
    ghost use Rattle.std.specs.Prelude.{List};
    ghost use Rattle.std.specs.Coded.{coded_list};
    ghost use Rattle.spec_world.specs.Questions.{Read};
    ghost use Rattle.view.specs.QuestionCode.{read_code};
    ghost use Rattle.world.specs.Seen.{seen_of};

    ghost Value = { List Read };

    ghost coded = { coded_list read_code };

    ghost view = { λ a. seen_of a.home a.notes.items };
}

impl Seen {
    /// The records of the snapshot, and the questions. None where nothing was asked.
    pub(crate) fn parts(&self) -> Option<(&Draft, &[Noted])>
        ensures { MatchOption result (self.now ≡ []) (λ r. map (read_on r.0.now) r.1.now ≡ self.now) }
    {
        let home = self.home.as_ref()?;
        Some((home.records(), self.notes.as_slice()))
    }
}
