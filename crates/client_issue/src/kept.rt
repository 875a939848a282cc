//! What a core hands out.
ghost use Rattle.std.specs.Prelude.{◌≡◌, ℕ, ◌<◌, ◌^◌, length};
ghost use Rattle.rc_base.specs.declared.scene.Scene.{Scene};
ghost use Rattle.rc_base.specs.declared.window.Layout.{Layout};
ghost use Rattle.client_issue.specs.Cores.{IsClientOf};
ghost use Rattle.client_issue.specs.Kept.{IsKept};

use crate::client::{ClientCore, ClientKept};
use crate::sender::Sender;
use rc_base::cluster::{FaultList, Tallies};
use rc_base::sync::{SyncOps, SyncRow};

impl Sender {
    fn into_row(self) -> (SyncRow, FaultList)
        requires { length self.stream < 2 ^ 32 }
        ensures ops { result.0.ops ≡ self.ops.items }
        ensures length_is { result.0.length ≡ length self.stream }
        ensures faults { result.1 ≡ self.context.faults }
    {
        let length = self.stream.len() as u32;
        let faults = self.context.into_faults();
        let ops = SyncOps::from_vec(self.ops);
        (SyncRow { ops, length }, faults)
    }
}

impl ClientCore {
    /// The accepted operations and the faults of the commands issued so far, which are those of the whole stream where all was sent, and the
    /// tallies, one for each tile; of a short core too. It takes no memory.
    pub fn into_kept(self) -> ClientKept
        ensures { (scene : Scene) (client : ℕ) (l : Layout) → IsClientOf self scene client l → IsKept self scene client result }
    {
        let (syncs, faults) = self.sender.into_row();
        ClientKept {
            syncs,
            faults,
            tallies: Tallies::from_vec(self.tallies),
        }
    }
}
