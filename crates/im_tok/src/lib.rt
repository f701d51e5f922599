// Tokens of C11 (6.4), and what they stand for.
#![tactic(auto)]

mod digits;
mod keyword;
mod literal;
mod number;
mod punctuator;
mod token;

pub use keyword::{Keyword, keyword_of};
pub use literal::{Element, ElementFault, character_of, element_at, text_bytes};
pub use number::{Base, Number, NumberType, Suffix, number_of};
pub use punctuator::{Punctuator, punctuator_of};
pub use token::{Token, TokenKind};
