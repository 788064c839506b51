//! From source trees to instructions.
//!
//! A program's code is first a draft: the operations of its constructs in their order, with the parts between them, and places as the
//! numbers of parts. The draft is built from its end, so that how much comes after a part is known when it is met. The code and the
//! handlers are assembled from the draft's front; that these are the program's is a law.
pub mod around;
pub mod draft;
mod draft_arguments;
mod draft_catch;
mod draft_expression;
mod draft_handlers;
mod draft_operands;
mod draft_scatter;
mod draft_statement;
pub mod laws;
pub mod operation;
