//! Laws of drafts.
ghost use Rattle.moo_program.specs.Assembling.{AssemblesCode, AssemblesHandlers};

/// The code and the handlers that are assembled from a program's draft are those of the program.
#[tactic(auto, using(crate::proofs::Assembled::assembles_code, crate::proofs::Assembled::assembles_handlers))]
pub fn assembling()
    ensures code { AssemblesCode }
    ensures handlers { AssemblesHandlers }
{}
