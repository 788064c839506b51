//! What an operation of the language answers: a value, or the error that it raises.
ghost use Rattle.std.specs.Prelude.{◌≡◌};
ghost use Rattle.spec_value.specs.Answer.{limited as limited_of};
ghost use Rattle.moo_value.specs.Answers.{answer_of};

use crate::error::MooError;
use crate::value::Value;

/// A value, or the error that is raised.
pub type Answer = Result<Value, MooError>;

/// The greatest weight of a result.
pub const WEIGHT_LIMIT: usize = 65_536;

/// The value, or `E_QUOTA` where it weighs more than a result may.
pub fn limited(value: Value) -> Answer
    ensures { answer_of result ≡ limited_of value }
{
    if value.kept_weight() as usize <= WEIGHT_LIMIT {
        Ok(value)
    } else {
        Err(MooError::LimitExceeded)
    }
}
