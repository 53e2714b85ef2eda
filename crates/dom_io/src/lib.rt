//! Where the bytes of programs and traces come from, and where the bytes of a result go to.
#![tactic(auto)]

mod clean_shelf;
mod clean_sink;
mod disk;
mod mem_shelf;
mod mem_sink;
mod out;
mod shelf;
mod sink;

pub use clean_shelf::CleanShelf;
pub use clean_sink::CleanSink;
pub use disk::{DiskShelf, read_first};
pub use mem_shelf::MemShelf;
pub use mem_sink::MemSink;
pub use out::OutSink;
pub use shelf::{Shelf, ShelfFault};
pub use sink::{Sink, SinkFault};
