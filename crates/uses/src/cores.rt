//! Steps of managers, clients and tiles, and what they leave.
ghost use Rattle.std.specs.Prelude.{◌≡◌, ℕ, ◌+◌, ◌<◌, ◌++◌, ◌∷◌, [], false, true, Ok, Some, IsNone, OnErr, length, slice_get, slice_index_or};
ghost use Rattle.rc_base.specs.Cluster.Tiles.{tile_count};
ghost use Rattle.rc_base.specs.Orders.Book.{standing};
ghost use Rattle.rc_base.specs.Orders.Journal.{IsLawful};
ghost use Rattle.rc_base.specs.Orders.Sync.{waits_below};
ghost use Rattle.rc_base.specs.declared.scene.Scene.{Scene};
ghost use Rattle.rc_base.specs.declared.sync.Entry.{Entry as AnyEntry};
ghost use Rattle.rc_base.specs.declared.sync.Grant.TheVariants as grant;
ghost use Rattle.rc_base.specs.declared.window.Layout.{Layout};
ghost use Rattle.order_model.specs.Standing.{Progress};
ghost use Rattle.sync_manager.specs.Books.{OfBook};
ghost use Rattle.sync_manager.specs.Cores.{clients_of as manager_clients, tiles_of, OfProgress};
ghost use Rattle.client_issue.specs.Cores.{issued_of, layout_of, left_in, short_of, IsClientOf};
ghost use Rattle.tile_server.specs.Cores.{clients_of, is_short, log_of, IsProgressOf};
ghost use Rattle.uses.specs.Cores.{IsTakenWork};

use client_issue::{ClientCore, ClientKept};
use parcel_bytes::Packed;
use rc_base::cluster::{ClientMoved, ManagerMoved, TileMoved};
use rc_base::lane::{Inlet, Outlet};
use rc_base::out_of_memory::OutOfMemory;
use rc_base::sync::{Grant, Request, Waiting};
use sync_manager::{Book, ManagerCore};
use tile_server::TileCore;

/// A step of a manager. An entry that it appends for a tile is that of the journal that comes behind those that the tile has.
pub fn granted<I: Inlet<Request>, O: Outlet<Grant>>(
    manager: &mut ManagerCore,
    requests: &mut [I],
    grants: &mut [O],
) -> Result<ManagerMoved, OutOfMemory>
    requires clients { length requests.old ≡ manager_clients manager.old }
    requires tiles { length grants.old ≡ tiles_of manager.old }
    ensures { (tile : ℕ) (d : O) (e : AnyEntry) → tile < tiles_of manager.old
        → O.sent (slice_index_or grants.new tile d) ≡ O.sent (slice_index_or grants.old tile d)
        ++ grant.Entry e ∷ []
        → OfProgress manager.old (λ syncs done. slice_get done.book.journal (done.delivered tile)
        ≡ Some e) }
{
    manager.step(requests, grants)
}

/// A step of a manager. Where it says that it has ended, it has told each tile that no more comes, though memory lacked before.
pub fn told_all<I: Inlet<Request>, O: Outlet<Grant>>(
    manager: &mut ManagerCore,
    requests: &mut [I],
    grants: &mut [O],
) -> Result<ManagerMoved, OutOfMemory>
    requires clients { length requests.old ≡ manager_clients manager.old }
    requires tiles { length grants.old ≡ tiles_of manager.old }
    ensures { result ≡ Ok ManagerMoved.Ended
        → OfProgress manager.old (λ syncs done. (tile : ℕ) → tile < tiles_of manager.old
        → done.told tile ≡ true) }
{
    manager.step(requests, grants)
}

/// Where the clients of a book are stuck. They aren't while an entry is lawful, though all of them wait.
pub fn stuck_at(book: &Book) -> Option<Waiting>
    ensures { (e : AnyEntry)
        → OfBook book.now (λ syncs arrived. IsLawful syncs (standing syncs arrived) e
        → IsNone result) }
{
    book.stuck()
}

/// A step of a client. Where it finds the lane of a tile full, all is still to be sent that was.
pub fn held_back<P: Outlet<Packed>, Q: Outlet<Request>>(
    client: &mut ClientCore,
    tiles: &mut [P],
    requests: &mut Q,
) -> Result<ClientMoved, OutOfMemory>
    requires { length tiles.old ≡ tile_count (layout_of client.old) }
    ensures { (tile : ℕ) → result ≡ Ok (ClientMoved.BlockedTile tile)
        → left_in client.new ≡ left_in client.old }
{
    client.step(tiles, requests)
}

/// A step of a client. Where it appends a parcel for a tile, one item fewer is left to be sent: none goes to a tile twice.
pub fn sent_once<P: Outlet<Packed>, Q: Outlet<Request>>(
    client: &mut ClientCore,
    tiles: &mut [P],
    requests: &mut Q,
) -> Result<ClientMoved, OutOfMemory>
    requires { length tiles.old ≡ tile_count (layout_of client.old) }
    ensures { (tile : ℕ) → result ≡ Ok (ClientMoved.Appended tile)
        → length (left_in client.old) ≡ length (left_in client.new) + 1 }
{
    client.step(tiles, requests)
}

/// What is kept of a client for which memory lacked. Its operations are those of all commands that it has issued.
pub fn kept_of(client: ClientCore) -> ClientKept
    requires { short_of client ≡ true }
    ensures { (scene : Scene) (number : ℕ) (l : Layout) → IsClientOf client scene number l
        → result.syncs.ops ≡ waits_below scene number (issued_of client) }
{
    client.into_kept()
}

/// A step of a tile. Where it carries out work of a client, it draws by that client's own state, whosever work it drew before.
pub fn drawn<I: Inlet<Packed>, J: Inlet<Grant>>(
    tile: &mut TileCore,
    clients: &mut [I],
    grants: &mut J,
) -> Result<TileMoved, OutOfMemory>
    requires { length clients.old ≡ clients_of tile.old }
    ensures { (p : Progress) (client : ℕ) (d : I) → IsProgressOf tile.old p
        → result ≡ Ok (TileMoved.Took client)
        → IsTakenWork I.gave d client clients.old tile.old clients.new tile.new }
{
    tile.step(clients, grants)
}

/// A step of a tile. Where memory lacks in it, the log is as it was: work that is lost isn't logged.
pub fn lost<I: Inlet<Packed>, J: Inlet<Grant>>(
    tile: &mut TileCore,
    clients: &mut [I],
    grants: &mut J,
) -> Result<TileMoved, OutOfMemory>
    requires { length clients.old ≡ clients_of tile.old }
    ensures { (p : Progress) → IsProgressOf tile.old p
        → OnErr result (log_of tile.new ≡ log_of tile.old) }
{
    tile.step(clients, grants)
}

/// A step of a tile. Where it holds a client at an operation it performs none: a semaphore is taken when that is granted, whatever units the tile saw
/// given.
pub fn held<I: Inlet<Packed>, J: Inlet<Grant>>(
    tile: &mut TileCore,
    clients: &mut [I],
    grants: &mut J,
) -> Result<TileMoved, OutOfMemory>
    requires { length clients.old ≡ clients_of tile.old }
    ensures { (p : Progress) (client : ℕ) → IsProgressOf tile.old p
        → result ≡ Ok (TileMoved.Held client) → log_of tile.new ≡ log_of tile.old }
{
    tile.step(clients, grants)
}

/// The clients that a tile takes parcels of. One for which memory has lacked takes of each client whose End it hasn't taken, held or not.
pub fn asked(tile: &TileCore) -> [bool; 8]
    requires { is_short tile.now ≡ true }
    ensures { (p : Progress) (client : ℕ) → IsProgressOf tile.now p → client < p.count
        → p.closed client ≡ false → slice_index_or result client true ≡ true }
{
    tile.asked()
}
