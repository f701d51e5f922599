use im_eval_machine::Found;

/// How a statement ended.
#[derive(Drop)]
pub enum Ended {
    Next,
    Broke,
    Continued,
    Returned(Found),
}
