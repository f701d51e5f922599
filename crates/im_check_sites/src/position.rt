//! The loops and switches round a statement.

/// Whether a loop or a switch stands round a statement.
#[derive(Clone, Copy, Debug)]
pub struct Position {
    pub in_loop: bool,
    pub in_switch: bool,
}
