//! Names that may be written plainly.
ghost use Rattle.std.specs.Prelude.{◌≡◌, IfSome, IsTrue};
ghost use Rattle.spec_value.specs.Datum.{is_text};
ghost use Rattle.spec_program.specs.Spelling as spelling;
ghost use Rattle.moo_printer.specs.Written.{text_of};

use moo_tree::expression::{Expression, ExpressionNode};
use moo_value::value::Shown;
use tokens_ahead::reserved::is_identifier;

/// The name that an expression behind a `.` or a `:` may be written as, if there is one.
pub fn plain_name(name: &Expression) -> Option<&str>
    ensures name { text_of result ≡ spelling.plain_name name.now }
    ensures allowed { IfSome result (λ t. IsTrue (is_text t.now)) }
{
    let ExpressionNode::Literal(value) = &name.node else {
        return None;
    };
    value.know();
    match value.shown() {
        Shown::Text(text) => if is_identifier(text.as_bytes()) {
            Some(text)
        } else {
            None
        },
        _ => None,
    }
}

/// Whether an expression is `#0`.
pub fn is_system(object: &Expression) -> bool
    ensures { result ≡ spelling.is_system object.now }
{
    let ExpressionNode::Literal(value) = &object.node else {
        return false;
    };
    match value.shown() {
        Shown::Object(number) => number == 0,
        _ => false,
    }
}
