//! Worked rows of the permission table.
ghost use Rattle.spec_rows.specs.PermissionRows.{Slots, NamesAndBits, PlayersNames, Standing, Places, Members, Owners, Verbs};

/// What is read and written.
#[tactic(auto, unfolding(crate::specs::Opened::opened))]
pub fn facets()
    ensures slots { Slots }
    ensures names { NamesAndBits }
    ensures players { PlayersNames }
    ensures standing { Standing }
    ensures places { Places }
    ensures members { Members }
    ensures owners { Owners }
    ensures verbs { Verbs }
{}

ghost use Rattle.spec_rows.specs.PermissionRows.{Evaluating, Children, Changes, OneselfAndTasks, Administering, NobodyIsNoWizard};

/// What is done.
#[tactic(auto, unfolding(crate::specs::Opened::opened))]
pub fn acts()
    ensures evaluating { Evaluating }
    ensures children { Children }
    ensures changes { Changes }
    ensures oneself { OneselfAndTasks }
    ensures administering { Administering }
    ensures nobody { NobodyIsNoWizard }
{}
