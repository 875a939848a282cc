//! Orders as runs.
ghost use Rattle.std.specs.Prelude.{◌≡◌, ◌+◌, ◌-◌, ◌++◌, ◌∷◌, [], IsTrue, IfOk, OnOk};
ghost use Rattle.rc_base.specs.Orders.Order.{names_from};
ghost use Rattle.serial_render.specs.Runs.{names_of_run, names_of_runs};

use rc_base::out_of_memory::OutOfMemory;
use rc_base::sync::{Name, Order};
use std::alloc::Global;
use std::marker::Model;

/// Names of one client in a row: from the one of its first place to that of its last.
#[derive(Clone, Copy, Debug)]
pub struct Run {
    pub client: u8,
    pub first: u32,
    pub last: u32,
}

/// An order, which contracts see as the list of its names. Names of one client in a row take the room of one run.
#[derive(Debug, Drop)]
pub struct RunOrder {
    kept: Vec<Run>,
}

impl Model for RunOrder {
    ghost use Rattle.std.specs.Prelude.{List};
    ghost use Rattle.rc_base.specs.declared.sync.Name.{Name};
    ghost use Rattle.serial_render.specs.Runs.{names_of_runs};

    ghost Value = { List Name };

    ghost view = { λ o. names_of_runs o.kept.items };
}

impl RunOrder {
    /// No names, which take no memory.
    pub fn new(alloc: Global) -> RunOrder
        ensures { result ≡ [] }
    {
        RunOrder {
            kept: Vec::new(alloc),
        }
    }

    /// The same names.
    pub fn of(alloc: Global, names: &[Name]) -> Result<RunOrder, OutOfMemory>
        ensures { IfOk result (λ o. o ≡ names.now) }
    {
        Ok(RunOrder {
            kept: runs_of(alloc, names)?,
        })
    }

    /// Adds the names of a client from one place on, below another.
    pub fn add(&mut self, client: u8, from: u32, to: u32) -> Result<(), OutOfMemory>
        ensures { OnOk result (self.new ≡ self.old ++ names_from client from (to - from)) }
    {
        add_run(&mut self.kept, client, from, to)
    }

    /// The runs of names, in their sequence.
    pub(crate) fn runs(&self) -> &[Run]
        ensures { names_of_runs result.now ≡ self.now }
    {
        self.kept.as_slice()
    }

    /// The names, one by one.
    pub fn to_order(&self, alloc: Global) -> Result<Order, OutOfMemory>
        ensures { IfOk result (λ o. o ≡ self.now) }
    {
        names_of(alloc, self.kept.as_slice())
    }
}

// Whether a name is the one behind a run.
fn goes_on(run: &Run, name: Name) -> bool
    ensures { IsTrue result → names_of_run (record run.now { last = name.place })
        ≡ names_of_run run.now ++ name ∷ [] }
{
    run.client == name.client
        && (run.first <= run.last && run.last as usize + 1 == name.place as usize)
}

// The run behind one name more. Where the name doesn't go on with the run, that run is added to those before it.
fn with_name(runs: &mut Vec<Run>, run: Run, name: Name) -> Result<Run, OutOfMemory>
    ensures { IfOk result (λ r. names_of_runs runs.new.items ++ names_of_run r
        ≡ (names_of_runs runs.old.items ++ names_of_run run) ++ name ∷ []) }
{
    if goes_on(&run, name) {
        return Ok(Run {
            client: run.client,
            first: run.first,
            last: name.place,
        });
    }
    runs.push(run)?;
    Ok(Run {
        client: name.client,
        first: name.place,
        last: name.place,
    })
}

// The runs of names.
fn runs_of(alloc: Global, names: &[Name]) -> Result<Vec<Run>, OutOfMemory>
    ensures { IfOk result (λ runs. names_of_runs runs.items ≡ names.now) }
{
    let mut runs = Vec::new(alloc);
    let mut run = Run {
        client: 0,
        first: 1,
        last: 0,
    };
    for name in names {
        run = with_name(&mut runs, run, *name)?;
    }
    runs.push(run)?;
    Ok(runs)
}

// Adds the names of a client from one place on, below another.
fn add_run(runs: &mut Vec<Run>, client: u8, from: u32, to: u32) -> Result<(), OutOfMemory>
    ensures { OnOk result (names_of_runs runs.new.items
        ≡ names_of_runs runs.old.items ++ names_from client from (to - from)) }
{
    if from >= to {
        return Ok(());
    }
    runs.push(Run {
        client,
        first: from,
        last: to - 1,
    })?;
    Ok(())
}

// Adds the names of a run.
fn add_names(names: &mut Vec<Name>, run: &Run) -> Result<(), OutOfMemory>
    ensures { OnOk result (names.new.items ≡ names.old.items ++ names_of_run run.now) }
{
    let end = run.last as usize + 1;
    names.reserve(end.saturating_sub(run.first as usize))?;
    for place in run.first as usize..end {
        names.push_reserved(Name {
            client: run.client,
            place: place as u32,
        });
    }
    Ok(())
}

// The names of runs.
fn names_of(alloc: Global, runs: &[Run]) -> Result<Order, OutOfMemory>
    ensures { IfOk result (λ o. o ≡ names_of_runs runs.now) }
{
    let mut names = Vec::new(alloc);
    for run in runs {
        add_names(&mut names, run)?;
    }
    Ok(Order::from_vec(names))
}
