//! Errors that a program can hold and raise.
ghost use Rattle.std.specs.Prelude.{◌≡◌};

/// An error of the language, which is a value too.
#[derive(Clone, Copy, PartialEq, Eq, Debug)]
pub enum MooError {
    /// `E_NONE`
    NoError,
    /// `E_TYPE`
    TypeMismatch,
    /// `E_DIV`
    ZeroDivision,
    /// `E_PERM`
    PermissionDenied,
    /// `E_PROPNF`
    PropertyNotFound,
    /// `E_VERBNF`
    VerbNotFound,
    /// `E_VARNF`
    VariableNotFound,
    /// `E_INVIND`
    InvalidIndirection,
    /// `E_RECMOVE`
    RecursiveMove,
    /// `E_MAXREC`
    TooManyCalls,
    /// `E_RANGE`
    RangeError,
    /// `E_ARGS`
    WrongArgumentCount,
    /// `E_NACC`
    MoveRefused,
    /// `E_INVARG`
    InvalidArgument,
    /// `E_QUOTA`
    LimitExceeded,
    /// `E_FLOAT`
    FloatError,
}

impl MooError {
    ghost use Rattle.moo_value.specs.Errors.{code_of};
    ghost use Rattle.spec_value.specs.Datum.{error_number};
    ghost use Rattle.spec_value.specs.Literal.{error_name, error_message};

    /// All errors, in their order.
    pub const ALL: [MooError; 16] = [
        MooError::NoError,
        MooError::TypeMismatch,
        MooError::ZeroDivision,
        MooError::PermissionDenied,
        MooError::PropertyNotFound,
        MooError::VerbNotFound,
        MooError::VariableNotFound,
        MooError::InvalidIndirection,
        MooError::RecursiveMove,
        MooError::TooManyCalls,
        MooError::RangeError,
        MooError::WrongArgumentCount,
        MooError::MoveRefused,
        MooError::InvalidArgument,
        MooError::LimitExceeded,
        MooError::FloatError,
    ];

    /// The error's number, from 0.
    pub fn number(self) -> u8
        ensures { result ≡ error_number (code_of self) }
    {
        match self {
            MooError::NoError => 0,
            MooError::TypeMismatch => 1,
            MooError::ZeroDivision => 2,
            MooError::PermissionDenied => 3,
            MooError::PropertyNotFound => 4,
            MooError::VerbNotFound => 5,
            MooError::VariableNotFound => 6,
            MooError::InvalidIndirection => 7,
            MooError::RecursiveMove => 8,
            MooError::TooManyCalls => 9,
            MooError::RangeError => 10,
            MooError::WrongArgumentCount => 11,
            MooError::MoveRefused => 12,
            MooError::InvalidArgument => 13,
            MooError::LimitExceeded => 14,
            MooError::FloatError => 15,
        }
    }

    /// The error's name, as programs spell it.
    pub fn name(self) -> &'static str
        ensures { result.now ≡ error_name (code_of self) }
    {
        match self {
            MooError::NoError => "E_NONE",
            MooError::TypeMismatch => "E_TYPE",
            MooError::ZeroDivision => "E_DIV",
            MooError::PermissionDenied => "E_PERM",
            MooError::PropertyNotFound => "E_PROPNF",
            MooError::VerbNotFound => "E_VERBNF",
            MooError::VariableNotFound => "E_VARNF",
            MooError::InvalidIndirection => "E_INVIND",
            MooError::RecursiveMove => "E_RECMOVE",
            MooError::TooManyCalls => "E_MAXREC",
            MooError::RangeError => "E_RANGE",
            MooError::WrongArgumentCount => "E_ARGS",
            MooError::MoveRefused => "E_NACC",
            MooError::InvalidArgument => "E_INVARG",
            MooError::LimitExceeded => "E_QUOTA",
            MooError::FloatError => "E_FLOAT",
        }
    }

    /// What the error says to people.
    pub fn message(self) -> &'static str
        ensures { result.now ≡ error_message (code_of self) }
    {
        match self {
            MooError::NoError => "No error",
            MooError::TypeMismatch => "Type mismatch",
            MooError::ZeroDivision => "Division by zero",
            MooError::PermissionDenied => "Permission denied",
            MooError::PropertyNotFound => "Property not found",
            MooError::VerbNotFound => "Verb not found",
            MooError::VariableNotFound => "Variable not found",
            MooError::InvalidIndirection => "Invalid indirection",
            MooError::RecursiveMove => "Recursive move",
            MooError::TooManyCalls => "Too many verb calls",
            MooError::RangeError => "Range error",
            MooError::WrongArgumentCount => "Incorrect number of arguments",
            MooError::MoveRefused => "Move refused by object",
            MooError::InvalidArgument => "Invalid argument",
            MooError::LimitExceeded => "Resource limit exceeded",
            MooError::FloatError => "Floating-point arithmetic error",
        }
    }
}
