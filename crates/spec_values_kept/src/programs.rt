//! Laws of program trees: how many nodes and loops are under way, and what their lines are made of.
ghost use Rattle.spec_values_kept.specs.Nodes.{PartsFew, NodesWithin, ParsedFew};
ghost use Rattle.spec_values_kept.specs.UnderWay.{LoopsLower, CodePrinted};

/// A construct has no more parts than nodes; what is under way has no more nodes than the tree; a text spells no more than two for each of its
/// characters.
#[tactic(auto, using(crate::proofs::NodesFew::parts_few, crate::proofs::NodesFew::nodes_within, crate::proofs::ParsedFew::parsed_few))]
pub fn counting()
    ensures parts { PartsFew }
    ensures within { NodesWithin }
    ensures parsed { ParsedFew }
{}

/// As many loops are under way as the tree is higher where they begin; the lines of a tree of the grammar are texts.
#[tactic(auto, using(crate::proofs::Heights::loops_lower, crate::proofs::CodePrinted::code_is_printed))]
pub fn bounding()
    ensures loops { LoopsLower }
    ensures lines { CodePrinted }
{}
