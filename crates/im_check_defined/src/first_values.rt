use im_typed::Constant;

/// The first values that an initialiser gives the cells of a static, in their order (C11 6.7.9).
#[derive(Drop)]
pub struct FirstValues {
    pub name: Vec<u8>,
    pub values: Vec<Constant>,
}
