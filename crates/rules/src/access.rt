//! What running code asks of objects, over a view: properties read and written, those that every object has among them, and
//! the verbs that calls run (Programmer's Manual, "Getting and Setting the Values of Properties", "Calling Built-in
//! Functions and Other Verbs").
//!
//! What is said of a view here is said of each world that it still allows. Each function asks for those facets alone that its
//! answer depends on.
pub mod built_in;
pub mod calling;
pub mod reading;
pub mod updating;
pub mod writing;
