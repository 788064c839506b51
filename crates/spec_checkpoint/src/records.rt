//! Laws of the lines of records: links, variables, values that are held, verbs, objects, and tasks.
ghost use Rattle.spec_checkpoint.specs.Records.{LinksReadOnce, VariablesReadOnce, HeldReadOnce};
ghost use Rattle.spec_checkpoint.specs.VerbsTold.{VerbsReadOnce};
ghost use Rattle.spec_checkpoint.specs.ObjectsTold.{ObjectsReadOnce};
ghost use Rattle.spec_checkpoint.specs.TasksTold.{TasksReadOnce};

/// Where the numbers and texts of a list are those of values, its lines have no other list.
#[tactic(auto, using(crate::proofs::RecordLines::links_read_once, crate::proofs::RecordLines::variables_read_once, crate::proofs::RecordLines::held_read_once))]
pub fn lists()
    ensures links { LinksReadOnce }
    ensures variables { VariablesReadOnce }
    ensures held { HeldReadOnce }
{}

/// The lines of an object's verbs have no other verbs, where their numbers and texts are those of values and their programs trees of the
/// grammar.
#[tactic(auto, using(crate::proofs::VerbRecords::verbs_read_once))]
pub fn verbs()
    ensures { VerbsReadOnce }
{}

/// So with the lines of all objects of a well-formed world, where the greatest number that was given is the same: their slots too, whose
/// names the lines do not tell.
#[tactic(auto, using(crate::proofs::SlotRecords::objects_read_once))]
pub fn objects()
    ensures { ObjectsReadOnce }
{}

/// So with the lines of all waiting tasks of a well-formed world: their constructs under way too, of which the lines tell the numbers of
/// their parts alone.
#[tactic(auto, using(crate::proofs::PieceRecords::tasks_read_once))]
pub fn tasks()
    ensures { TasksReadOnce }
{}
