//! The values of literals.

ghost use Rattle.std.specs.Prelude.{◌≡◌, Some, IfSome};
ghost use Rattle.spec_program.specs.ReadExpressions as by;
ghost use Rattle.moo_token.specs.Meaning.{error_meant};
ghost use Rattle.moo_value.specs.Errors.{code_of};

use moo_token::token::ErrorName;
use moo_value::error::MooError;

/// The value of an error's name.
pub fn error_of(name: ErrorName) -> MooError
    ensures { code_of result ≡ error_meant name }
{
    match name {
        ErrorName::NoError => MooError::NoError,
        ErrorName::TypeMismatch => MooError::TypeMismatch,
        ErrorName::ZeroDivision => MooError::ZeroDivision,
        ErrorName::PermissionDenied => MooError::PermissionDenied,
        ErrorName::PropertyNotFound => MooError::PropertyNotFound,
        ErrorName::VerbNotFound => MooError::VerbNotFound,
        ErrorName::VariableNotFound => MooError::VariableNotFound,
        ErrorName::InvalidIndirection => MooError::InvalidIndirection,
        ErrorName::RecursiveMove => MooError::RecursiveMove,
        ErrorName::TooManyCalls => MooError::TooManyCalls,
        ErrorName::RangeError => MooError::RangeError,
        ErrorName::WrongArgumentCount => MooError::WrongArgumentCount,
        ErrorName::MoveRefused => MooError::MoveRefused,
        ErrorName::InvalidArgument => MooError::InvalidArgument,
        ErrorName::LimitExceeded => MooError::LimitExceeded,
        ErrorName::FloatError => MooError::FloatError,
    }
}

/// The value of an integer's digits: past the greatest integer it is the least one.
pub fn integer_of(number: u32) -> i32
    ensures { result ≡ by.integer_value number }
{
    if number <= 2147483647 {
        number as i32
    } else {
        i32::MIN
    }
}

/// The number of an object, by its sign and digits, if it is in range.
pub fn object_of(minus: bool, number: u32) -> Option<i32>
    ensures { IfSome result (λ n. n ≡ by.object_value minus number) }
{
    if number <= 2147483647 {
        let number = number as i32;
        return Some(if minus { -number } else { number });
    }
    if minus && number == 2147483648 {
        return Some(i32::MIN);
    }
    None
}
