//! How deep a program may nest.

/// How many statements and expressions a path of a program's tree has at most.
pub const GREATEST_HEIGHT: usize = 100;

/// How deep an expression's text nests at most: each node of a path may stand in parentheses.
pub const GREATEST_NESTING: usize = 201;
