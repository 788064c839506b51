//! Rows of the server's loop and a client of it in one process, over the loopback address.
#[cfg(test)]
mod client;
#[cfg(test)]
mod served;
#[cfg(test)]
mod talks;
