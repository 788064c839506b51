//! Laws of outlines.
ghost use Rattle.moo_places.specs.Reaching.{OutlineReaches, PathIsReached};
ghost use Rattle.moo_places.specs.Seeking.{OutlineFinds};

/// To seek an instruction along a program's outline is to find the path of what it belongs to.
pub fn seeking()
    ensures { OutlineFinds }
{}

/// To go along the outline by a path is to go down the tree's code by it, and the path of pieces that lead to a construct leads to
/// its last instruction.
pub fn reaching()
    ensures outline { OutlineReaches }
    ensures path { PathIsReached }
{}
