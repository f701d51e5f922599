//! From expressions and labels to the statements that have no statement in them, and to the parts of the others.
#![tactic(auto)]

mod asked;
mod heads;
mod labels;
mod leaves;
mod made;
mod scopes;

pub use asked::tested;
pub use heads::{ForHead, head};
pub use im_check_locals::declaration;
pub use labels::{Labels, Selector, case_label, default_label, no_labels, selected_by};
pub use leaves::{
    break_statement, continue_statement, expression_statement, return_statement, stray_label,
};
pub use made::{block_made, do_made, for_made, if_made, switch_made, while_made};
pub use scopes::{closed, opened};
