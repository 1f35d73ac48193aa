//! The outside of the program: a folder of files, and a sink for what is written.
//!
//! The program is written over two traits. A [`Folder`] starts a file, gives its next bytes and puts a whole file. A
//! [`Sink`] takes text. [`MemFolder`] and [`MemSink`] hold all in memory, have a ghost model of it, and fail where
//! they are set to. [`DiskFolder`] and [`StdSink`] are thin adapters over the system, and no contract tells what a
//! disk holds.
//!
//! Each call stands in a log with its answer, and each failure was counted. `read_bounded` gives the whole file or
//! says why not. `write_whole` writes the whole text or a prefix of it. The log is ghost code: the built program has
//! none of it.
//!
//! Trusted, and not proved: what a real file or stream holds, and that an adapter makes the calls that it notes. That
//! is read by eye, in some 160 lines, and tested. Start with `specs/Outside.antt`, then `specs/Read.antt`.
#![tactic(auto)]

mod disk_folder;
mod entry;
mod folder;
mod log;
mod memory_folder;
mod memory_sink;
mod plan;
mod read;
mod room;
mod rooms;
mod sink;
mod stream_sink;
mod write;

pub use disk_folder::DiskFolder;
pub use folder::{Failed, Folder};
pub use log::{Log, Note};
pub use memory_folder::MemFolder;
pub use memory_sink::MemSink;
pub use read::{Read, read_bounded};
pub use sink::Sink;
pub use stream_sink::StdSink;
pub use write::write_whole;
