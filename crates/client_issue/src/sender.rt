//! What the commands of a client give, one item at a time.
use crate::pending::Pending;
use command_store::CommandStore;
use gl_context::Context;
use parcel_bytes::Pool;
use rc_base::scene::Decl;
use rc_base::sync::WaitAt;
use rc_base::window::Layout;
use state_update::Tracker;
use std::alloc::Global;

/// A client that issues its commands: the next is number `issued`, and of the one before it parcels and a request may be pending.
#[derive(Drop)]
pub(crate) struct Sender {
    pub alloc: Global,
    pub decl: Decl,
    pub stream: CommandStore,
    pub layout: Layout,
    pub count: u8,
    pub context: Context,
    pub tracker: Tracker,
    pub pool: Pool,
    pub issued: u32,
    pub pending: Option<Pending>,
    pub request: Option<WaitAt>,
    pub ops: Vec<WaitAt>,
}
