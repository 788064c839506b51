//! Who may do what in a world (Programmer's Manual, "Fundamental Object Attributes", "Properties on Objects", "Verbs on
//! Objects" and the permissions of each built-in function).
pub mod act;
pub mod may;
