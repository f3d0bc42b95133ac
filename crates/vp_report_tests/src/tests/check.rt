//! Certificates that are read, refused and found wrong.

mod reading;
mod verdicts;
