// A file as a whole.
ghost use Rattle.std.specs.Prelude.{◌≡◌, [], length};
ghost use Rattle.state.specs.Runs.{Run};
ghost use Rattle.reading.specs.Steps.{Comes};
ghost use Rattle.wcsp.specs.Files.{file, calls, variable_calls};
ghost use Rattle.wcsp.specs.Steps.{Under};

use crate::header::read_header;
use crate::sizes::read_sizes;
use crate::tables::read_tables;
use reading::{Read, Step, read_end};
use state::State;

// How many variables a file has, and the state that its calls leave.
#[derive(Clone, Copy)]
pub(crate) struct File {
    pub(crate) variables: usize,
    pub(crate) state: State,
}

// A new state with variables of these sizes; a size s means the values 0 to s - 1.
fn declared(sizes: &[u8]) -> State
    requires { Under 65 sizes.now }
    ensures { Run (variable_calls sizes.now []) result }
{
    let mut state = setup::new();
    for size in sizes {
        let added = setup::add_variable(state, values::first_values(*size as usize));
        state = added.state;
    }
    state
}

// The whole file: its first fault, or the state that its calls leave.
pub(crate) fn load(text: &[u8]) -> Step<File>
    ensures { Comes (file text.now) (λ f k. (length f.sizes ≡ k.variables) × Run (calls f) k.state) result }
{
    let header = read_header(text)?;
    let n = header.what.variables;
    let lengths = read_sizes(text, header.after, header.what.largest, n)?;
    let all = lengths.what;
    let sizes = &all[..n];
    let tables = read_tables(
        text,
        lengths.after,
        sizes,
        header.what.constraints,
        declared(sizes),
    )?;
    let end = read_end(text, tables.after)?;
    Ok(Read {
        what: File {
            variables: n,
            state: tables.what,
        },
        after: end.after,
    })
}
