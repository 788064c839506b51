//! Worked rows of drafts: the clauses are the rows, true by computation.
#![tactic(auto)]

ghost use Rattle.draft_rows.specs.Rows.{AnyCode, Assigned, Call, Catch, Else, Finally, Fork, Handlers, Items, Listing, Loop, Nested, Scattering, VerbCall};

/// Drafts of expressions.
pub fn expressions()
    ensures list { Listing }
    ensures call { Call }
    ensures verb_call { VerbCall }
    ensures nested { Nested }
    ensures assigned { Assigned }
    ensures catch { Catch }
    ensures any_code { AnyCode }
    ensures scattering { Scattering }
{}

/// Drafts of statements.
pub fn statements()
    ensures branches { Else }
    ensures items { Items }
    ensures loops { Loop }
    ensures finally { Finally }
    ensures fork { Fork }
    ensures handlers { Handlers }
{}
