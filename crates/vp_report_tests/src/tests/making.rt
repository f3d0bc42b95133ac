//! Logs that are made.

mod logs;
