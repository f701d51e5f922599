//! The types of expressions and declarations, as the checker holds them: those of a table, unsized
//! arrays and function types.
#![tactic(auto)]

mod build;
mod compare;
mod copies;
mod forms;
mod measure;
mod table;
mod tree;

pub use build::{array_of, function_of, pointer_to, unsized_of};
pub use compare::{are_like_pointers, same, same_bool};
pub use copies::{copy, copy_all};
pub use forms::{
    is_array, is_character, is_complete, is_function, is_integer, is_pointer, is_scalar, is_struct,
    is_void,
};
pub use measure::{size, struct_extent};
pub use table::{id_of, type_from};
pub use tree::Type;
