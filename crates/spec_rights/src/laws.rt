//! Laws of permissions.
ghost use Rattle.spec_rights.specs.Chains.{NativesPermit, StagesPermit, NativesLeaveTasks, StagesLeaveTasks};

/// A call of a built-in function, and a later stage of one, changes what the table allows to the programmer of the verb that calls it;
/// so do both to waiting tasks and to links.
pub fn natives()
    ensures calls { NativesPermit }
    ensures stages { StagesPermit }
    ensures tasks { NativesLeaveTasks }
    ensures later_tasks { StagesLeaveTasks }
{}

ghost use Rattle.spec_rights.specs.Chains.{TurnsAct, SegmentsAct, StepsAct};

/// So does each turn of a task, and each that its segment comes to: it acts as the programmer of the verb that is under way. A step
/// changes objects by such turns, of one task, or by the program of one verb, typed by a player who is allowed to, or not at all.
pub fn acting()
    ensures turns { TurnsAct }
    ensures segments { SegmentsAct }
    ensures steps { StepsAct }
{}

ghost use Rattle.spec_rights.specs.Chains.{TurnsPermit, SegmentsPermit};

/// A turn and a segment of a task are such changes one after another, each by a programmer with a right to run.
pub fn tasks()
    ensures turns { TurnsPermit }
    ensures segments { SegmentsPermit }
{}

ghost use Rattle.spec_rights.specs.Chains.{StepsPermit, ListsPermit};

/// So are a step and a list of steps.
pub fn steps()
    ensures steps { StepsPermit }
    ensures lists { ListsPermit }
{}

ghost use Rattle.spec_rights.specs.LeftAlone.{TurnsLeaveStanding, TurnsLeaveAlone, TurnsLeaveSlots};

/// A turn that does not act as a wizard leaves all owners and flags; one that acts as a stranger to an object leaves it and its verbs, and
/// one that acts as an outsider to a slot (a stranger to it and to each object above) leaves what the slot holds.
pub fn turns()
    ensures standing { TurnsLeaveStanding }
    ensures alone { TurnsLeaveAlone }
    ensures slots { TurnsLeaveSlots }
{}

ghost use Rattle.spec_rights.specs.LeftAlone.{NoWizardsArise, StrangersLeaveAlone, OutsidersLeaveSlots};

/// Where no verb and no waiting task is a wizard's, no list of steps makes anyone one, and all owners and flags stay; an object and its
/// verbs stay as they were while strangers alone run, and so does a slot while outsiders alone do.
pub fn strangers()
    ensures wizards { NoWizardsArise }
    ensures alone { StrangersLeaveAlone }
    ensures slots { OutsidersLeaveSlots }
{}
