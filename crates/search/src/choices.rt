// The search: the lowest open variable goes through its values upwards, and after each choice the lists are narrowed.
ghost use Rattle.std.specs.Prelude.{◌≤◌, ◌<◌, length, get_or, set};
ghost use Rattle.meaning.specs.Limits.{variable_limit};
ghost use Rattle.search.specs.Search.{Given, FirstReaching};
ghost use Rattle.search.specs.Choosing.{FirstOpen, Lows, TellsEmpty};
ghost use Rattle.search.specs.Tasks.{Searchable, Choosable, Narrowable, SearchedIn};

use crate::nodes::narrow;
use crate::spreading::rules_on;
use crate::task::Task;
use filters::Rules;

// A value for each variable; later places are 0.
pub type Rota = [u8; 32];

// The lowest open variable, one with more than one value left.
fn first_open(lists: &[u64]) -> Option<usize>
    ensures { FirstOpen lists.now result }
{
    lists.iter().position(|&list| 1 < values::count(list))
}

// The rota of each list's lowest value.
fn lows_of(lists: &[u64]) -> Rota
    requires { length lists.now ≤ variable_limit }
    ensures { Lows lists.now (length lists.now) result }
{
    let mut lows = [0u8; 32];
    for (x, &list) in lists.iter().enumerate() {
        lows[x] = values::lowest(list) as u8;
    }
    lows
}

// Whether some list is empty.
fn any_empty(lists: &[u64]) -> bool
    ensures { TellsEmpty lists.now result }
{
    lists.contains(&0)
}

// The first rota within narrowed lists. Where no variable is open, each list's only value makes it.
#[cycle(choose_try_value)]
fn choose(task: &Task<'_>, lists: [u64; 32]) -> Option<Rota>
    requires { Choosable task.now lists }
    ensures { SearchedIn task.now lists result }
{
    let Some(x) = first_open(&lists[..task.n]) else {
        return Some(lows_of(&lists[..task.n]));
    };
    let mut rest = lists[x];
    while rest != 0 {
        let v = values::lowest(rest);
        let kept = values::only(v);
        let rota = try_value(task, x, kept, lists);
        if rota.is_some() {
            return rota;
        }
        rest = values::without(rest, v);
    }
    None
}

// The first rota within the lists where x has the one value that is kept.
#[cycle(choose_try_value)]
fn try_value(task: &Task<'_>, x: usize, kept: u64, lists: [u64; 32]) -> Option<Rota>
    requires { (x < variable_limit) × Narrowable task.now (get_or task.now.sets x 0) (set lists x kept) }
    ensures { SearchedIn task.now (set lists x kept) result }
{
    let mut left = lists;
    left[x] = kept;
    narrow(task, task.sets[x], &mut left)?;
    choose(task, left)
}

// The first rota within closed lists that meets every rule and reaches the thresholds.
fn first_within(task: &Task<'_>, lists: [u64; 32]) -> Option<Rota>
    requires { Searchable task.now lists }
    ensures { SearchedIn task.now lists result }
{
    if any_empty(&lists[..task.n]) {
        return None;
    }
    let mut left = lists;
    narrow(task, 0, &mut left)?;
    choose(task, left)
}

// The first rota of what stands in a state whose objectives reach the thresholds.
pub fn first_reaching(
    rules: Rules<'_>,
    goals: &[u8],
    n: usize,
    lists: [u64; 32],
    floors: &[u8],
) -> Option<Rota>
    requires { Given rules.heads.now rules.room.now goals.now n lists }
    ensures { FirstReaching rules.entry.heads.now rules.entry.room.now goals.now n lists floors.now result }
{
    let task = Task {
        rules,
        sets: rules_on(rules),
        goals,
        floors,
        n,
    };
    first_within(&task, lists)
}
