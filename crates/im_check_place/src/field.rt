use im_types::Type;

/// A member of a struct whose list hasn't ended (C11 6.7.2.1): its name, whether it is const
/// itself, and its type.
#[derive(Drop)]
pub struct Field {
    pub name: Vec<u8>,
    pub constant: bool,
    pub ty: Type,
}
