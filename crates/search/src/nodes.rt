// A node of the search: lists narrowed by the rules and the thresholds together.
ghost use Rattle.search.specs.Tasks.{Narrowable, SievedTo};

use crate::spreading::{affected_by, spread};
use crate::task::Task;
use crate::thresholds::raise;

// Filters by the rules that are due and by the thresholds, until neither drops anything; none where some list empties or the thresholds are out of reach.
pub(crate) fn narrow(task: &Task<'_>, due: u64, lists: &mut [u64]) -> Option<()>
    requires { Narrowable task.now due lists.old }
    ensures { SievedTo task.now lists.old result lists.new }
{
    let mut rest = due;
    loop {
        spread(task, rest, lists)?;
        let changed = raise(task.goals, task.floors, lists)?;
        if changed == 0 {
            return Some(());
        }
        rest = affected_by(&task.sets, lists, changed)?;
    }
}
