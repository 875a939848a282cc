//! What one issue of each command tells.
use rc_base::cluster::FaultLists;
use rc_base::sync::SyncLists;

/// What is known of a scene's whole streams when each command has been issued once, also beyond a place where a client waits for ever.
#[derive(Drop)]
pub struct Survey {
    /// The accepted operations of synchronisation, the barriers' counts and the semaphores' first units.
    pub syncs: SyncLists,
    /// Each client's refused commands.
    pub faults: FaultLists,
}
