//! Where bytes come from and where they go: a source and a sink that count their faults, and the two calls that move
//! whole texts through them.
#![tactic(auto)]

mod block;
mod blocks;
mod calls;
mod count_sink;
mod fault;
mod mem_sink;
mod mem_source;
mod pure_source;
mod real_sink;
mod real_source;
mod sink;
mod source;
mod whole;

pub use blocks::Blocks;
pub use count_sink::CountSink;
pub use fault::{Failed, ReadStop, WriteFault};
pub use mem_sink::MemSink;
pub use mem_source::MemSource;
pub use pure_source::PureSource;
pub use real_sink::RealSink;
pub use real_source::RealSource;
pub use sink::Sink;
pub use source::Source;
pub use whole::{LIMIT, put, read_all};
