//! What a player is told whose lines are no program.
ghost use Rattle.std.specs.Prelude.{◌≡◌, Some, None, option_map, IfOk, IsTrue, MatchOption};
ghost use Rattle.spec_value.specs.Datum.{is_text};
ghost use Rattle.spec_program.specs.ReadPrograms.{Parsed};
ghost use Rattle.syntax_fault.specs.Meaning.{IsFaultOrMemory, kind_meant};
ghost use Rattle.steps.specs.Codes.{IsTold, behind_line};

use moo_value::text::Text;
use std::alloc::{AllocError, Global};
use syntax_fault::fault::{FaultKind, SyntaxFault};

/// The line of a fault, and the name of its kind.
pub(crate) fn fault_text(alloc: Global, fault: SyntaxFault) -> Result<Text, AllocError>
    ensures { IfOk result (λ t. (p : Parsed) → IsFaultOrMemory fault p → IsTold t p) }
{
    let Some(kind) = behind_line(fault.kind) else {
        return Err(AllocError);
    };
    let line = fault.line;
    let digits = format!(in alloc; "{line}")?;
    Text::joined(alloc, "Line ", digits.as_str(), kind)
}

// What stands behind the number of the line. A lack of memory is told to nobody.
fn behind_line(kind: FaultKind) -> Option<&'static str>
    ensures { MatchOption result (kind_meant kind ≡ None) (λ s. (option_map behind_line (kind_meant kind) ≡ Some s.now) × IsTrue (is_text s.now)) }
{
    match kind {
        FaultKind::Character => Some(": Character"),
        FaultKind::Unclosed => Some(": Unclosed"),
        FaultKind::Token => Some(": Token"),
        FaultKind::Nesting => Some(": Nesting"),
        FaultKind::Number => Some(": Number"),
        FaultKind::LoopName => Some(": Loop name"),
        FaultKind::Memory => None,
    }
}
