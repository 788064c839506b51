//! What is told of a text that is no program.
ghost use Rattle.std.specs.Prelude.{◌≡◌, ◌++◌, codes, IfOk, IsTrue};
ghost use Rattle.spec_value.specs.Datum.{is_text};
ghost use Rattle.builtins.specs.Faults.{kind_told, text_told, fault_told};

use moo_value::text::Text;
use moo_value::value::Value;
use std::alloc::{AllocError, Global};
use syntax_fault::fault::{FaultKind, SyntaxFault};

/// A list of the fault's text alone.
pub fn fault_value(alloc: Global, fault: SyntaxFault) -> Result<Value, AllocError>
    ensures { IfOk result (λ v. v ≡ fault_told fault) }
{
    let text = fault_text(alloc, fault)?;
    let mut items = Vec::with_capacity(alloc, 1)?;
    items.push(Value::text(text))?;
    Value::list(items)
}

// The line, and the kind's name.
#[tactic(auto, using(moo_printer::proofs::Digits::text_decimal))]
fn fault_text(alloc: Global, fault: SyntaxFault) -> Result<Text, AllocError>
    ensures { IfOk result (λ t. t ≡ text_told fault) }
{
    let line = fault.line;
    let digits = format!(in alloc; "{line}")?;
    Text::joined(alloc, "Line ", digits.as_str(), behind_line(fault.kind))
}

fn behind_line(kind: FaultKind) -> &'static str
    ensures name { result.now ≡ codes ": " ++ kind_told kind }
    ensures allowed { IsTrue (is_text result.now) }
{
    match kind {
        FaultKind::Character => ": Character",
        FaultKind::Unclosed => ": Unclosed",
        FaultKind::Token => ": Token",
        FaultKind::Nesting => ": Nesting",
        FaultKind::Number => ": Number",
        FaultKind::LoopName => ": Loop name",
        FaultKind::Memory => ": Memory",
    }
}
