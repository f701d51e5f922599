// The outside: files and streams, as traits with fakes and adapters.
#![tactic(auto)]

mod calls;
mod fault;
mod host_shelf;
mod host_sink;
mod mem_file;
mod mem_shelf;
mod mem_sink;
mod room;
mod shelf;
mod sink;
mod whole;

pub use fault::{Failed, OpenFault, ReadFault};
pub use host_shelf::HostShelf;
pub use host_sink::HostSink;
pub use mem_shelf::MemShelf;
pub use mem_sink::MemSink;
pub use shelf::Shelf;
pub use sink::Sink;
pub use whole::{read_whole, send, send_pieces, store};
