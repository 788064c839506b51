//! Rows of the text that is made beside: the world goes on while an encoder holds, and the text is that of the snapshot.
#[cfg(test)]
mod holding;
#[cfg(test)]
mod rows;
