use im_eval_machine::{Here, Machine};
use im_eval_tasks::Task;

/// A run of a program: what it works on, the activation that runs, and what is still to do, the
/// next task last.
#[derive(Drop)]
pub(crate) struct Run<'p> {
    pub machine: Machine<'p>,
    pub here: Here,
    pub tasks: Vec<Task<'p>>,
}
