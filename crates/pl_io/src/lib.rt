//! Files to read and streams to write, behind two traits: in memory for tests, and over the operating system.
//!
//! What a shelf and a sink tell of themselves stands in `specs/Outside.antt`.
#![tactic(auto)]

mod begun;
mod blocks;
mod error;
mod file_shelf;
mod mem_shelf;
mod mem_sink;
mod named_file;
mod numbered;
mod putting;
mod reading;
mod shelf;
mod sink;
mod streams;
mod sure_sink;
mod tries;

pub use blocks::Blocks;
pub use error::{Failed, ReadEnd};
pub use file_shelf::FileShelf;
pub use mem_shelf::MemShelf;
pub use mem_sink::MemSink;
pub use named_file::NamedFile;
pub use putting::{put_all, put_pieces};
pub use reading::{MAX_FILE_BYTES, read_whole};
pub use shelf::Shelf;
pub use sink::Sink;
pub use streams::{ErrSink, OutSink};
pub use sure_sink::SureSink;
