//! Worked rows of texts: programs and their canonical spelling, and faults.
ghost use Rattle.spec_rows.specs.TextRows.{Branch, Chain, Loops, NamedLoop, Handlers, Comments};

/// Statements.
#[tactic(auto, unfolding(crate::specs::Opened::opened))]
pub fn statements()
    ensures branch { Branch }
    ensures chain { Chain }
    ensures loops { Loops }
    ensures named { NamedLoop }
    ensures handlers { Handlers }
    ensures comments { Comments }
{}

ghost use Rattle.spec_rows.specs.TextRows.{Parentheses, Groups, Targets, Names, Catches, Literals};

/// Expressions.
#[tactic(auto, unfolding(crate::specs::Opened::opened))]
pub fn expressions()
    ensures parentheses { Parentheses }
    ensures groups { Groups }
    ensures targets { Targets }
    ensures names { Names }
    ensures catches { Catches }
    ensures literals { Literals }
{}

ghost use Rattle.spec_rows.specs.TextRows.{BadTokens, WrongTokens, WrongScatters, LoopNames, FirstFaults, Depths};

/// Texts that are no programs.
#[tactic(auto, unfolding(crate::specs::Opened::opened))]
pub fn faults()
    ensures bad { BadTokens }
    ensures wrong { WrongTokens }
    ensures scatters { WrongScatters }
    ensures loops { LoopNames }
    ensures first { FirstFaults }
    ensures depths { Depths }
{}
