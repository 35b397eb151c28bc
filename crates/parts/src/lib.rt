// What the readers and the writers of every record share: a format, rows and counted lists of it, and whole INFOs, read and written.

#![tactic(auto)]

pub mod bytes;
pub mod format;
pub mod group;
pub mod list;
pub mod read;
pub mod write;
