//! A crew with room for all that its run makes.
ghost use Rattle.std.specs.Prelude.{◌≡◌, ◌≤◌, vec_len, vec_capacity, IfOk};

use crate::crew::Crew;
use crate::start::Started;
use crate::task::Task;
use crate::worker::Worker;
use rc_base::out_of_memory::OutOfMemory;
use std::alloc::Global;

/// A crew that hasn't been started, with room for the lists that its run makes. The room is made before the first start, since a run that stopped half
/// way would leave threads that wait for ever.
#[derive(Drop)]
pub struct Ready<A: Worker, B: Worker, C: Worker> {
    pub(crate) crew: Crew<A, B, C>,
    pub(crate) clients: Vec<Started<A>>,
    pub(crate) tiles: Vec<Started<C>>,
    pub(crate) client_tasks: Vec<Task<A>>,
    pub(crate) tile_tasks: Vec<Task<C>>,
    ghost no_clients: { (vec_len clients ≡ 0) × (vec_len client_tasks ≡ 0) },
    ghost no_tiles: { (vec_len tiles ≡ 0) × (vec_len tile_tasks ≡ 0) },
    ghost client_room: { (vec_len crew.clients ≤ vec_capacity clients) × (vec_len crew.clients ≤ vec_capacity client_tasks) },
    ghost tile_room: { (vec_len crew.tiles ≤ vec_capacity tiles) × (vec_len crew.tiles ≤ vec_capacity tile_tasks) },
}

/// Makes the room for a crew's run.
pub fn prepare<A: Worker + Drop, B: Worker + Drop, C: Worker + Drop>(
    alloc: Global,
    crew: Crew<A, B, C>,
) -> Result<Ready<A, B, C>, OutOfMemory>
    ensures { IfOk result (λ r. r.crew ≡ crew) }
{
    let clients = Vec::with_capacity(alloc, crew.clients.len())?;
    let tiles = Vec::with_capacity(alloc, crew.tiles.len())?;
    let client_tasks = Vec::with_capacity(alloc, crew.clients.len())?;
    let tile_tasks = Vec::with_capacity(alloc, crew.tiles.len())?;
    Ok(Ready {
        crew,
        clients,
        tiles,
        client_tasks,
        tile_tasks,
    })
}
