/// Where a virtual register's value is kept.
#[derive(Clone, Copy, PartialEq, Eq, Debug)]
pub enum Home {
    Register(u32),
    Slot(u32),
}

/// The homes of a function's registers, by their numbers, and how many slots they take.
#[derive(Drop)]
pub struct Homes {
    pub of: Vec<Home>,
    pub slots: u32,
}
