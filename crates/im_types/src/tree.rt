ghost use Rattle.std.specs.Prelude.{◌≡◌, ℕ, Bool};
ghost use Rattle.im_ctype.specs.Types as t;
ghost use Rattle.im_types.specs.Shape.{type_of};

use im_ctype::Integer;

/// A type (C11 6.2.5), its parts within it.
#[derive(Debug)]
pub enum Type {
    Void,
    Integer(Integer),
    /// The flag says that what it points to is `const`; of an array, that its elements are.
    Pointer(bool, Box<Type>),
    /// An array of so many elements.
    Array(Box<Type>, u64),
    /// An array whose length is not written.
    Unsized(Box<Type>),
    /// A struct, by its number in the order in which the member lists of the unit end.
    Struct(u32),
    /// The type of its result, and those of its parameters.
    Function(Box<Type>, Vec<Type>),
}

impl Drop for Type {
    fn drop(self) {
        match self {
            Type::Void => {}
            Type::Integer(_) => {}
            Type::Pointer(_, _) => {}
            Type::Array(_, _) => {}
            Type::Unsized(_) => {}
            Type::Struct(_) => {}
            Type::Function(_, _) => {}
        }
    }
}

impl Type {
    /// The pointer to the elements of an array; what is no array itself.
    pub fn into_pointer(self, constant: bool) -> Type
        ensures array { (e : t.CType) (n : ℕ) → type_of self ≡ t.array e n
            → type_of result ≡ t.pointer constant e }
        ensures unknown_length { (e : t.CType) → type_of self ≡ t.unsized e
            → type_of result ≡ t.pointer constant e }
    {
        match self {
            Type::Array(element, _) => Type::Pointer(constant, element),
            Type::Unsized(element) => Type::Pointer(constant, element),
            other => other,
        }
    }

    /// The array of so many elements, where its length was not written; what is none itself.
    pub fn into_array(self, count: u64) -> Type
        ensures { (e : t.CType) → type_of self ≡ t.unsized e → type_of result ≡ t.array e count }
    {
        match self {
            Type::Unsized(element) => Type::Array(element, count),
            other => other,
        }
    }

    /// What a pointer points to; what is no pointer itself.
    pub fn into_target(self) -> Type
        ensures pointer { (constant : Bool) (e : t.CType) → type_of self ≡ t.pointer constant e
            → type_of result ≡ e }
        ensures others { ((constant : Bool) (e : t.CType) → type_of self ≡ t.pointer constant e → ⊥)
            → type_of result ≡ type_of self }
    {
        match self {
            Type::Pointer(_, target) => Box::into_inner(target),
            other => other,
        }
    }
}
