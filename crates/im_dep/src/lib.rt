//! From accesses and their tags to dependences: which reads are exposed, and which later writes may meet them.
#![tactic(auto)]

mod laws;
mod pairs;
mod scans;
mod spans;

pub use laws::covers_law;
pub use pairs::meets;
pub use scans::{clobbers, exposed, is_written, write_span};
pub use spans::{Base, Span, covers, direct_span};
