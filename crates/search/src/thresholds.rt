// The thresholds at a node of the search: place i asks that all but i of the objectives reach floors[i].
ghost use Rattle.std.specs.Prelude.{◌≡◌, ◌≤◌, length};
ghost use Rattle.meaning.proofs.Counting.{reach};
ghost use Rattle.search.specs.Thresholds.{Aims, Open, Tops, Lifted, Raised};

use blocks::keep;

// Drops the values with which a threshold cannot be reached. The answer is the set of the variables whose lists change; none where a threshold is out of reach.
pub(crate) fn raise(goals: &[u8], floors: &[u8], lists: &mut [u64]) -> Option<u64>
    requires { Aims goals.now lists.old × Open goals.now lists.old }
    ensures { Raised goals.now floors.now lists.old result lists.new }
{
    let greatest = tops_of(goals, lists);
    let tops = &greatest[..goals.len()];
    let mut changed = 0;
    for (i, &floor) in floors.iter().enumerate() {
        if 0 < floor {
            let enough = reaching(tops, floor);
            let needed = goals.len().saturating_sub(i);
            if enough < needed {
                return None;
            }
            if enough == needed {
                changed |= lift(goals, tops, floor, lists);
            }
        }
    }
    Some(changed)
}

// The greatest value left to each objective.
fn tops_of(goals: &[u8], lists: &[u64]) -> [u8; 16]
    requires { Aims goals.now lists.now × Open goals.now lists.now }
    ensures { Tops goals.now (length goals.now) lists.now result }
{
    let mut tops = [0u8; 16];
    for (j, &goal) in goals.iter().enumerate() {
        tops[j] = values::highest(lists[goal as usize]) as u8;
    }
    tops
}

// How many of the tops reach the floor.
#[tactic(auto, using(crate::proofs::Reaching::reach_counts))]
fn reaching(tops: &[u8], floor: u8) -> usize
    ensures { result ≡ reach floor tops.now }
{
    tops.iter().filter(|&&top| floor <= top).count()
}

// Drops what lies below the floor from the list of each objective whose top reaches it. The answer is the set of the variables whose lists change.
fn lift(goals: &[u8], tops: &[u8], floor: u8, lists: &mut [u64]) -> u64
    requires { Aims goals.now lists.old × (length tops.now ≡ length goals.now) }
    ensures { Lifted goals.now (length goals.now) tops.now floor lists.old lists.new result }
{
    let mut changed = 0;
    for (j, &goal) in goals.iter().enumerate() {
        if floor <= tops[j] {
            let x = goal as usize;
            let high = values::at_or_above(lists[x], floor as usize);
            changed |= keep(lists, x, high);
        }
    }
    changed
}
