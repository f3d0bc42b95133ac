//! Logs that are read, refused and written again.

mod logs;
