//! What is lent to all that draws the clients of a scene apart.
ghost use Rattle.std.specs.Prelude.{◌≡◌, ◌≤◌};
ghost use Rattle.rc_base.specs.Orders.Sync.{sync_lists_of};
ghost use Rattle.sort_last.specs.Apart.{IsReady, IsReady-prop, AreListsOf, AreListsOf-prop, HaveFrames};

use command_store::StoredScene;
use rc_base::sync::SyncLists;
use textures::SharedSet;

/// The frames from one to below another of a scene whose clients are drawn apart, with its lists of operations, and shared textures that nothing writes.
#[derive(Clone, Copy)]
pub(crate) struct Batch<'a> {
    pub(crate) scene: &'a StoredScene,
    pub(crate) syncs: &'a SyncLists,
    pub(crate) shared: &'a SharedSet,
    pub(crate) first: usize,
    pub(crate) end: usize,
    pub(crate) ghost ready: { IsReady scene.now shared.now } by { IsReady-prop scene.now shared.now },
    pub(crate) ghost lists: { AreListsOf scene.now syncs.now } by { AreListsOf-prop scene.now syncs.now },
    pub(crate) ghost order: { first ≤ end },
    pub(crate) ghost frames: { HaveFrames scene.now end },
}

impl Batch<'_> {
    /// Those of its frames from one to below another.
    pub(crate) fn part(&self, first: usize, end: usize) -> Batch<'_>
        requires order { first ≤ end }
        requires most { end ≤ self.now.end }
        ensures scene { result.scene.now ≡ self.now.scene.now }
        ensures first { result.first ≡ first }
        ensures end { result.end ≡ end }
    {
        Batch {
            scene: self.scene,
            syncs: self.syncs,
            shared: self.shared,
            first,
            end,
        }
    }
}

/// Names of a client, from one place to below another.
#[derive(Clone, Copy)]
pub(crate) struct ClientNames {
    pub(crate) client: usize,
    pub(crate) from: usize,
    pub(crate) to: usize,
}
