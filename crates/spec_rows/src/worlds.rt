//! Worked rows of worlds: changed fixtures that are well formed and that are not, clause by clause.
ghost use Rattle.spec_rows.specs.WorldRows.{Cycles, Children, Contents, Numbers, Properties, Inherits};

/// Objects and their properties.
#[tactic(auto, unfolding(crate::specs::Opened::opened))]
pub fn objects()
    ensures cycles { Cycles }
    ensures children { Children }
    ensures contents { Contents }
    ensures numbers { Numbers }
    ensures properties { Properties }
    ensures inherits { Inherits }
{}

ghost use Rattle.spec_rows.specs.WorldRows.{Links, Entries, Waits, Variables, Natives};

/// Links and tasks.
#[tactic(auto, unfolding(crate::specs::Opened::opened))]
pub fn tasks()
    ensures links { Links }
    ensures entries { Entries }
    ensures waits { Waits }
    ensures variables { Variables }
    ensures natives { Natives }
{}
