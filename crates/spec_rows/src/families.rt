//! Worked rows of objects that come, change and go.
ghost use Rattle.spec_rows.specs.FamilyRows.{HeirOwns, DefinerOwns, AddedAndDeleted, NewChild, NewOrphan, OtherFamily, KeptContent, Clashes};

/// What heirs inherit, and what they keep under another parent.
#[tactic(auto, unfolding(crate::specs::Opened::opened))]
pub fn heirs()
    ensures heir { HeirOwns }
    ensures definer { DefinerOwns }
    ensures added { AddedAndDeleted }
    ensures child { NewChild }
    ensures orphan { NewOrphan }
    ensures family { OtherFamily }
    ensures kept { KeptContent }
    ensures clashes { Clashes }
{}

ghost use Rattle.spec_rows.specs.FamilyRows.{GoneThing, GoneRoom, BoxToAnn, LastInPlace, Inside, VerbsComeAndGo};

/// What becomes of the family and the contents of an object that goes, where things are, and verbs.
#[tactic(auto, unfolding(crate::specs::Opened::opened))]
pub fn changes()
    ensures thing { GoneThing }
    ensures room { GoneRoom }
    ensures moved { BoxToAnn }
    ensures last { LastInPlace }
    ensures inside { Inside }
    ensures verbs { VerbsComeAndGo }
{}
