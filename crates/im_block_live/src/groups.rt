/// The virtual registers that live at the start of each block, 32 a group: bit j of the word of
/// block b in group i is register 32 * i + j.
#[derive(Drop)]
pub struct Live {
    pub groups: Vec<Vec<u32>>,
}
