ghost use Rattle.std.specs.Prelude.{◌≡◌, ℕ, List};
ghost use Rattle.im_ctype.specs.Table.{Table};
ghost use Rattle.im_typed.specs.Meaning.{entered};
ghost use Rattle.im_typed.specs.Programs.{Setting};
ghost use Rattle.im_typed.specs.Runs.{State};
ghost use Rattle.im_eval_tasks.specs.Stack.{in_activation, leads, then_flowed};
ghost use Rattle.im_eval_tasks.specs.Tasks.{switches};
ghost use Rattle.im_eval_machine.specs.declared.here.Here.{Here};
ghost use Rattle.im_eval_tasks.specs.declared.tasks.Task.{Task};

use crate::steps::{Next, Now};
use crate::tasks::{Rest, Statements, Switch, Task};
use im_store::Number;
use im_typed::Case;

/// Where a switch enters its block: the number of a statement.
fn entry(cases: &[Case], number: Number, otherwise: u32) -> u32
    ensures { result ≡ entered number.value cases.now otherwise }
{
    'labels: for case in cases {
        if case.value == number.value {
            return case.at;
        }
    }
    otherwise
}

/// A switch goes on from the number that its value is (C11 6.8.4.2).
pub fn enter_switch<'p>(switch: Switch<'p>, number: Number) -> Next<'p>
    ensures { (types : Table) (g : Setting) (n : ℕ) (here : Here) (ts : List Task) (s : State)
        → leads types g n here ts result s ≡ then_flowed types g n here ts
        (switches types (in_activation types g n here) n switch.entry number.value) s }
{
    let first = entry(switch.cases, number, switch.otherwise);
    let entered = Statements {
        block: switch.block,
        next: first as usize,
    };
    Next::Before(Now::Statements(entered), Task::Rest(Rest::Switch))
}
