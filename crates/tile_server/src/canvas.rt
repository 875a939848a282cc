//! A tile's pixels, and what it keeps to draw them.
ghost use Rattle.std.specs.Prelude.{◌≡◌};
ghost use Rattle.std.proofs.Props.{props};
ghost use Rattle.textures.specs.Stores.{HasTexels};
ghost use Rattle.tile_server.specs.Kepts.{AreFit};
ghost use Rattle.tile_server.specs.Switched.{IsStateOf};
ghost use Rattle.tile_server.specs.Works.{IsRectOf, texels_in};

use crate::blank::{blank_device, new_clients};
use crate::givable::is_givable;
use crate::hardware::{Hardware, are_told};
use crate::kept::KeptClient;
use crate::work::{draw, work};
use draw_device::LazyDevice;
use element_table::default_state;
use geometry::spelt;
use parcel_bytes::Packed;
use rc_base::cluster::TilePart;
use rc_base::out_of_memory::OutOfMemory;
use rc_base::scene::{Decl, copy_of_decl};
use rc_base::state::{Parcel, Vertices};
use rc_base::window::Layout;
use std::alloc::Global;
use textures::SharedSet;
use textures::laws::sets_have_stored_texels;

/// The pixels of one tile, what the tile keeps of each client, and the shared textures. The device draws with one state, which is switched where the
/// client or its state is another one than at the last block.
#[derive(Drop)]
pub struct Canvas {
    decl: Decl,
    layout: Layout,
    tile: u8,
    hw: Hardware,
    kept: Vec<KeptClient>,
    shared: SharedSet,
    device: LazyDevice,
    ghost place: { IsRectOf layout tile device.rect },
    ghost whole: { HasTexels decl.shared (texels_in shared) shared },
    ghost fit: { AreFit decl kept.items },
    ghost aimed: { hw.rect ≡ device.rect },
    ghost switched: { IsStateOf hw.of hw.state kept.items } by { Prim.hlevel props },
}

impl Canvas {
    ghost use Rattle.std.specs.Prelude.{◌≡◌, ◌<◌, true, false, IfOk};
    ghost use Rattle.rc_base.specs.Cluster.Tiles.{tile_count};
    ghost use Rattle.tile_model.specs.Acts.{is_draw, is_work};
    ghost use Rattle.tile_model.specs.Boards.{IsCarriedOut, IsNewBoard};
    ghost use Rattle.tile_server.specs.Boards.{board_on, canvas_clients, drawn_pixel, may_come, IsPartOf, IsSameTile, KeepsAll};
    ghost use Rattle.draw_device.specs.Devices.{EachTakes};

    /// The canvas of a tile that was sent nothing yet.
    pub fn new(
        alloc: Global,
        decl: &Decl,
        clients: u8,
        layout: &Layout,
        tile: u8,
    ) -> Result<Canvas, OutOfMemory>
        requires { tile < tile_count layout.now }
        ensures decl { IfOk result (λ c. c.decl ≡ decl.now) }
        ensures clients { IfOk result (λ c. canvas_clients c ≡ clients) }
        ensures layout { IfOk result (λ c. c.layout ≡ layout.now) }
        ensures tile { IfOk result (λ c. c.tile ≡ tile) }
        ensures blank { IfOk result (λ c. IsNewBoard decl.now layout.now tile (board_on c)) }
    {
        sets_have_stored_texels();
        let first = default_state(decl);
        let device = blank_device(alloc, layout, tile)?;
        let hw = Hardware::new(first, &device);
        Ok(Canvas {
            decl: copy_of_decl(alloc, decl)?,
            layout: *layout,
            tile,
            hw,
            kept: new_clients(alloc, first, clients)?,
            shared: SharedSet::new(alloc, &decl.shared)?,
            device,
        })
    }

    /// Makes the parcel's sets in what is kept of its client, and with that draws, clears or writes a shared texture. Its parts are moved, so this takes
    /// no memory. A parcel that no scene can give changes nothing. The vertices that were drawn are handed back.
    pub fn carry_out(&mut self, client: u8, parcel: Parcel) -> Option<Vertices>
        requires client { client < canvas_clients self.old }
        requires work { is_work parcel.act ≡ true }
        ensures same { IsSameTile self.old self.new }
        ensures done { may_come self.old parcel ≡ true → IsCarriedOut self.old.decl self.old.layout
            client self.old.tile parcel (board_on self.old) (board_on self.new) }
        ensures ignored { may_come self.old parcel ≡ false → board_on self.new ≡ board_on self.old }
    {
        sets_have_stored_texels();
        if !is_givable(&self.decl, &parcel) {
            return None;
        }
        let of = client;
        let client = usize::from(client);
        let Parcel { sets, act, .. } = parcel;
        let told = are_told(&sets);
        self.hw.expect(told);
        self.kept[client].apply_all(sets);
        work(
            &mut self.hw,
            of,
            &self.kept[client],
            act,
            &mut self.device,
            &mut self.shared,
        )
    }

    /// Draws the block of a parcel from the bytes that spell it, with what is kept of its client; sets aren't made. Takes no memory.
    pub fn draw_block(&mut self, client: u8, parcel: &Packed)
        requires client { client < canvas_clients self.old }
        requires draws { is_draw parcel.now.act ≡ true }
        ensures kept { KeepsAll self.old self.new }
        ensures drawn { EachTakes (drawn_pixel self.old client parcel.now.act) self.old.device self.new.device }
    {
        let Some(block) = parcel.block() else {
            return;
        };
        draw(
            &mut self.hw,
            client,
            &self.kept[usize::from(client)],
            &spelt(block),
            &mut self.device,
            &self.shared,
        );
    }

    /// A copy of the pixels, as the tile's part of a frame.
    pub fn part(&self, frame: u32) -> Result<TilePart, OutOfMemory>
        ensures { IfOk result (IsPartOf self.now.layout self.now.tile frame (board_on self.now)) }
    {
        self.device.part(self.tile, frame)
    }
}
