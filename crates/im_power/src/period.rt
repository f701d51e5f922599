/// A period of power, repeated.
#[derive(Clone, Copy, PartialEq, Eq, Debug)]
pub struct Period {
    /// How many instructions the power lasts for.
    pub n: u32,
    /// The word that every register but x0 holds as the power comes.
    pub junk: u32,
    /// How many such periods follow one another.
    pub count: u32,
    /// Which bytes of the next store are still written as the power fails: byte i where bit i is
    /// set, i from 0 to 3. With 0 the power fails between two instructions.
    pub mask: u32,
}
