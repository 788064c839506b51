//! Worlds in files, each as its text.
pub mod reading;
