//! Rows of sessions over readers and writers in memory: what is written and which world is left, what a device that fails leaves, and workers that meet.
#[cfg(test)]
mod devices;
#[cfg(test)]
mod failures;
#[cfg(test)]
mod held;
#[cfg(test)]
mod rows;
