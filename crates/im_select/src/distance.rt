/// How far the labels of a function's branches are (RISC-V Unprivileged ISA, 2.5).
#[derive(Clone, Copy)]
pub enum Distance {
    /// A branch reaches them.
    Near,
    /// A jump reaches them, over which a branch leads.
    Far,
}
