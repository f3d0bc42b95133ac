//! Logs that keep the laws and logs that break them, and the lines of a summary.

mod logs;
mod summaries;
