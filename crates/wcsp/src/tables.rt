// The tables of a file, added to a state one after the other.
ghost use Rattle.std.specs.Prelude.{◌≡◌, [], ◌≤◌, length};
ghost use Rattle.meaning.specs.Limits.{variable_limit, room_limit, arity_limit};
ghost use Rattle.state.specs.Runs.{Run};
ghost use Rattle.reading.specs.Reading.{number, times};
ghost use Rattle.reading.specs.Steps.{Comes, ComesTo};
ghost use Rattle.wcsp.specs.Files.{count_tests, table, table_calls, variable_calls};
ghost use Rattle.wcsp.specs.Steps.{NextTable};

use crate::listing::{Heading, read_tuples};
use crate::scopes::read_scope;
use costs::sort_by;
use meaning::ROOM;
use reading::{Read, Step, any_number, number_judged, number_within};
use refusals::Refusal;
use state::{Sort, State};

// A table's variables stand in the first places of an array, for memory is fixed; its cells are in the lent buffer.
#[derive(Clone, Copy)]
struct Table {
    sort: Sort,
    scope: [u8; 8],
    arity: usize,
    filled: usize,
}

// How many tuples: the room, some of it used, must hold them.
fn tuple_count(text: &[u8], at: usize, used: usize, arity: usize) -> Step<usize>
    requires { (used ≤ room_limit) × (arity ≤ arity_limit) }
    ensures { ComesTo (number text.now (count_tests used arity) at) result }
{
    number_judged(text, at, |count| {
        if ROOM < used + (arity + arity * count) {
            Err(Refusal::Full)
        } else {
            Ok(())
        }
    })
}

// One table on variables of these sizes, where those before it use some of the room.
fn read_table(
    text: &[u8],
    at: usize,
    sizes: &[u8],
    used: usize,
    cells: &mut [u8; ROOM],
) -> Step<Table>
    requires { (length sizes.now ≤ variable_limit) × (used ≤ room_limit) }
    ensures { NextTable text.now sizes.now used at cells.new result }
{
    let arity = number_within(text, at, 1, Refusal::WrongLength, 8, Refusal::WrongLength)?;
    let scope = read_scope(text, arity.after, sizes.len(), arity.what)?;
    let default = any_number(text, scope.after)?;
    let count = tuple_count(text, default.after, used, arity.what)?;
    let variables = scope.what;
    let heading = Heading {
        sizes,
        scope: &variables[..arity.what],
        default: default.what,
    };
    let listed = read_tuples(text, count.after, heading, count.what, cells)?;
    Ok(Read {
        what: Table {
            sort: sort_by(default.what),
            scope: variables,
            arity: arity.what,
            filled: count.what * arity.what,
        },
        after: listed.after,
    })
}

// So many tables on variables of these sizes, added to a state one after the other.
pub(crate) fn read_tables(
    text: &[u8],
    at: usize,
    sizes: &[u8],
    count: usize,
    started: State,
) -> Step<State>
    requires { (length sizes.now ≤ variable_limit) × Run (variable_calls sizes.now []) started }
    ensures { Comes (times (table text.now sizes.now) count [] at) (λ ts k. Run (table_calls ts (variable_calls sizes.now [])) k) result }
{
    let mut state = started;
    let mut cells = [0u8; ROOM];
    let mut place = at;
    let mut used = 0;
    for _ in 0..count {
        let table = read_table(text, place, sizes, used, &mut cells)?;
        let Table {
            sort,
            scope,
            arity,
            filled,
        } = table.what;
        let added = state::add_table(state, sort, &scope[..arity], &cells[..filled]);
        state = added.state;
        used += arity + filled;
        place = table.after;
    }
    Ok(Read {
        what: state,
        after: place,
    })
}
