//! Rows of the server: lists of steps and what is due, sessions over devices in memory, the text that is made beside, and the server's loop with a client in one process.
#![tactic(auto)]

#[cfg(test)]
mod beside_rows;
#[cfg(test)]
mod due_rows;
#[cfg(test)]
mod list_rows;
#[cfg(test)]
mod meeting;
#[cfg(test)]
mod session_rows;
#[cfg(test)]
mod talk_rows;
