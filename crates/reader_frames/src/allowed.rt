//! What the items of braces still allow.

ghost use Rattle.std.specs.Prelude.{◌≡◌, true};
ghost use Rattle.spec_program.specs.ReadExpressions as by;
ghost use Rattle.moo_reader.specs.Views.{allowed_of};

use moo_reader::found::Allowed;

/// No scatter is possible.
pub fn list_alone(allowed: Allowed) -> Allowed
    ensures { allowed_of result ≡ by.list_alone (allowed_of allowed) }
{
    Allowed {
        as_list: allowed.as_list,
        as_scatter: false,
        has_rest: allowed.has_rest,
    }
}

/// No list is possible.
pub fn scatter_alone(allowed: Allowed) -> Allowed
    ensures { allowed_of result ≡ by.scatter_alone (allowed_of allowed) }
{
    Allowed {
        as_list: false,
        as_scatter: allowed.as_scatter,
        has_rest: allowed.has_rest,
    }
}

/// One of the items takes the rest.
pub fn with_rest(allowed: Allowed) -> Allowed
    ensures { allowed_of result ≡ record (allowed_of allowed) { has_rest = true } }
{
    Allowed {
        as_list: allowed.as_list,
        as_scatter: allowed.as_scatter,
        has_rest: true,
    }
}

/// One rest alone is that of a scatter; in a list it is a splice like another.
pub fn rest_allowed(allowed: Allowed) -> Allowed
    ensures { allowed_of result ≡ by.rest_allowed (allowed_of allowed) }
{
    Allowed {
        as_list: allowed.as_list,
        as_scatter: allowed.as_scatter && !allowed.has_rest,
        has_rest: true,
    }
}
