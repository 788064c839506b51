//! Laws of the machine.
ghost use Rattle.moo_code.specs.Bounds.{BegunEnds, ResumedEnds};
ghost use Rattle.moo_code.specs.Lasting.{RunsLast, StepsFall, TurnsSuffice};
ghost use Rattle.moo_code.specs.Operands.{ListBegins, ListIsSpliced, ListReceives, OperandsAreThere, OthersFail, ValueStays};
ghost use Rattle.moo_code.specs.Paths.{CallsWait, IsFound, IsPlaced};
ghost use Rattle.moo_code.specs.Rebuilding.{EntriesRebuilt, FramesRebuilt, PiecesComeBack};
ghost use Rattle.moo_code.specs.Resuming.{FittingCounted, OutersOnly, OutersWait};
ghost use Rattle.moo_code.specs.Runs.{RunsEnd, RunsStopAsSegments, TasksGoOn, VerbsBegin};
ghost use Rattle.moo_code.specs.Slots.{CodeNamed, EmptySlots, HandlersNamed, NameHasSlot, NamesOnce, OneSlotForName, OthersNamed, OthersSorted, OthersStay, SlotIsSet, SlotIsVariable, SlotsStart, TableIsSplit, VariablesSorted};
ghost use Rattle.moo_code.specs.Stands.{StepsFollow};

/// One instruction does what some turns of the definition do, for every program: the operands, places and handlers of a
/// machine are told by the definition's own pieces, in the innermost verb and in each that waits.
pub fn steps()
    ensures { StepsFollow }
{}

/// A verb begins so; a task that waited goes on so; every run ends; and where it stops, the segment of the definition
/// stops, with the same scene and ticks.
pub fn runs()
    ensures begins { VerbsBegin }
    ensures goes_on { TasksGoOn }
    ensures stops { RunsStopAsSegments }
    ensures ends { RunsEnd }
{}

/// The instruction of a construct is found at the path of its pieces, the path leads back to the place of a call, and a
/// verb that stands at a call of its program waits there.
pub fn places()
    ensures found { IsFound }
    ensures placed { IsPlaced }
    ensures waits { CallsWait }
{}

/// As many instructions as a segment has turns end a run; and the number of those before its end falls with each, which is
/// the measure of a loop over instructions.
pub fn lasts()
    ensures turns { TurnsSuffice }
    ensures over { RunsLast }
    ensures falls { StepsFall }
{}

/// Slots in the order of a list of names stand for a table of variables over those that have no slot: reading a slot is
/// looking its name up, writing one is giving its name the value, other names stay as they are, and slots without values add
/// nothing. A name has one slot. And each table is that of slots with its values, over what has its other values.
pub fn slots()
    ensures sorted { VariablesSorted }
    ensures read { SlotIsVariable }
    ensures others { OthersStay }
    ensures written { SlotIsSet }
    ensures empty { EmptySlots }
    ensures further_sorted { OthersSorted }
    ensures further_named { OthersNamed }
    ensures split { TableIsSplit }
    ensures found { NameHasSlot }
    ensures once { OneSlotForName }
{}

/// Each name of a program stands once in its list, with those of every instruction and handler; and a verb starts with the
/// first slots filled and no others.
pub fn names()
    ensures once { NamesOnce }
    ensures code { CodeNamed }
    ensures handlers { HandlersNamed }
    ensures start { SlotsStart }
{}

/// What receives a value on the stack: the list on the top gets it, or its items, where it is a list; a list begins above it,
/// or it stays beside others. And in a machine that stands for pending work each instruction finds its operands.
pub fn operands()
    ensures listed { ListReceives }
    ensures spliced { ListIsSpliced }
    ensures others { OthersFail }
    ensures begins { ListBegins }
    ensures stays { ValueStays }
    ensures there { OperandsAreThere }
{}

/// The place and the operands of a verb that waits at a call give its pieces back, the path is that of its pieces, and leads
/// to its place; and so all that a machine waits with is what the definition has.
pub fn rebuilding()
    ensures pieces { PiecesComeBack }
    ensures frames { FramesRebuilt }
    ensures entries { EntriesRebuilt }
{}

/// The instructions of a run are bounded by a number that is computed from the machine alone, where a verb begins and where a
/// task goes on that waited.
pub fn bounds()
    ensures begun { BegunEnds }
    ensures resumed { ResumedEnds }
{}

/// The machine of a task that waits is told by what the definition keeps of it, and no other stands for it; the pieces of a
/// well-formed task hold as many values as they have to.
pub fn resuming()
    ensures waits { OutersWait }
    ensures only { OutersOnly }
    ensures counted { FittingCounted }
{}
