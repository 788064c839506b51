//! Rows of lists: on boards and by several workers, what is refused, and how each step is committed.
#[cfg(test)]
mod asked;
#[cfg(test)]
mod lists;
#[cfg(test)]
mod meetings;
#[cfg(test)]
mod refusals;
#[cfg(test)]
mod row;
