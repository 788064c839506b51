//! Worked rows of what players type: words, names, prepositions, objects, commands.
ghost use Rattle.spec_rows.specs.LineRows.{CutAtSpaces, NoWords, QuotesGroup, EmptyWords, OpenQuote, Backslashes, RawRest, Signs};

/// The words of a line, and what stands behind the first one.
#[tactic(auto, unfolding(crate::specs::Opened::opened))]
pub fn words()
    ensures cut { CutAtSpaces }
    ensures none { NoWords }
    ensures quotes { QuotesGroup }
    ensures empty { EmptyWords }
    ensures open { OpenQuote }
    ensures backslashes { Backslashes }
    ensures rest { RawRest }
    ensures signs { Signs }
{}

ghost use Rattle.spec_rows.specs.LineRows.{PlainName, StarredName, OpenName, LaterStar, SeveralNames, InFrontOf, OffOf, NoPreposition};

/// Names of verbs, and prepositions.
#[tactic(auto, unfolding(crate::specs::Opened::opened))]
pub fn names()
    ensures plain { PlainName }
    ensures starred { StarredName }
    ensures open { OpenName }
    ensures later { LaterStar }
    ensures several { SeveralNames }
    ensures front { InFrontOf }
    ensures off { OffOf }
    ensures none { NoPreposition }
{}

ghost use Rattle.spec_rows.specs.LineRows.{Named, NotNamed, Numbered, MeAndHere, ExactlyOrByBeginning};

/// Objects that a player means.
#[tactic(auto, unfolding(crate::specs::Opened::opened))]
pub fn objects()
    ensures named { Named }
    ensures not_named { NotNamed }
    ensures numbered { Numbered }
    ensures me { MeAndHere }
    ensures exactly { ExactlyOrByBeginning }
{}

ghost use Rattle.spec_rows.specs.LineRows.{PartsOfALine, PartsWithoutPreposition, RoomsLook, BoxesLook, NotUnderstood, Programs};

/// What a line asks for.
#[tactic(auto, unfolding(crate::specs::Opened::opened))]
pub fn commands()
    ensures parts { PartsOfALine }
    ensures no_preposition { PartsWithoutPreposition }
    ensures room { RoomsLook }
    ensures thing { BoxesLook }
    ensures not_understood { NotUnderstood }
    ensures programs { Programs }
{}
