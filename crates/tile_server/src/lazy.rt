//! A canvas on which blocks are drawn later.
ghost use Rattle.std.specs.Prelude.{◌≡◌, true};
ghost use Rattle.tile_server.specs.Boards.{canvas_clients};
ghost use Rattle.tile_server.specs.Waits.{are_plain};

use crate::canvas::Canvas;
use crate::waiting::{Waiting, WaitingBlock};
use parcel_bytes::Packed;
use rc_base::cluster::TilePart;
use rc_base::out_of_memory::OutOfMemory;
use rc_base::scene::Decl;
use rc_base::state::{Parcel, Vertices};
use rc_base::window::Layout;
use std::alloc::Global;

/// A canvas, and blocks without sets that wait to be drawn on it, in the order in which they were taken. Contracts see the board behind their drawing.
/// What is kept of the clients and the shared textures stays as it is while they wait, so each is drawn as it would have been when it was taken.
#[derive(Drop)]
pub struct LazyCanvas {
    drawn: Canvas,
    waiting: Waiting,
    ghost plain: { are_plain (canvas_clients drawn) waiting ≡ true },
}

impl LazyCanvas {
    ghost use Rattle.std.specs.Prelude.{◌≡◌, ◌<◌, ◌-◌, nat_lt, true, false, [], length, IfOk};
    ghost use Rattle.rc_base.specs.Cluster.Tiles.{tile_count};
    ghost use Rattle.tile_model.specs.Acts.{is_work};
    ghost use Rattle.tile_model.specs.Boards.{IsNewBoard};
    ghost use Rattle.tile_server.specs.Boards.{canvas_clients, may_come, IsPartOf, IsSameTile};
    ghost use Rattle.tile_server.specs.LazyBoards.{board_in, IsDoneIn, IsSameBoard, MayWait, IsBlockDone};

    /// The canvas of a tile that was sent nothing yet.
    pub(crate) fn new(
        alloc: Global,
        decl: &Decl,
        clients: u8,
        layout: &Layout,
        tile: u8,
    ) -> Result<LazyCanvas, OutOfMemory>
        requires { tile < tile_count layout.now }
        ensures decl { IfOk result (λ c. c.drawn.decl ≡ decl.now) }
        ensures clients { IfOk result (λ c. canvas_clients c.drawn ≡ clients) }
        ensures layout { IfOk result (λ c. c.drawn.layout ≡ layout.now) }
        ensures tile { IfOk result (λ c. c.drawn.tile ≡ tile) }
        ensures blank { IfOk result (λ c. IsNewBoard decl.now layout.now tile (board_in c)) }
    {
        let waiting = Waiting::new(alloc)?;
        let drawn = Canvas::new(alloc, decl, clients, layout, tile)?;
        Ok(LazyCanvas { drawn, waiting })
    }

    /// Draws the block that waits longest, if one waits. Whether one did.
    pub(crate) fn draw_one(&mut self) -> bool
        ensures same { IsSameBoard self.old self.new }
        ensures one { length self.new.waiting ≡ length self.old.waiting - 1 }
        ensures drew { result ≡ nat_lt 0 (length self.old.waiting) }
    {
        match self.waiting.pop() {
            Some(block) => {
                self.drawn.draw_block(block.client, &block.parcel);
                true
            }
            None => false,
        }
    }

    /// Draws all blocks that wait.
    fn draw_all(&mut self)
        ensures same { IsSameBoard self.old self.new }
        ensures none { self.new.waiting ≡ [] }
    {
        for _ in 0..self.waiting.len() {
            let _drawn = self.draw_one();
        }
    }

    // Draws the block that waits longest where one more of so many bytes has no room.
    fn make_room(&mut self, size: usize)
        ensures { IsSameBoard self.old self.new }
    {
        if !self.waiting.has_room(size) {
            let _drawn = self.draw_one();
        }
    }

    // Draws the block of a parcel behind all that wait.
    fn draw_now(&mut self, client: u8, parcel: &Packed)
        requires { MayWait self.old client parcel.now }
        ensures { IsBlockDone self.old client parcel.now self.new }
    {
        self.draw_all();
        self.drawn.draw_block(client, parcel);
    }

    /// Carries out the parcel of a block without sets: it waits to be drawn, where it has room. Takes no memory.
    pub(crate) fn put_off(&mut self, client: u8, parcel: Packed)
        requires { MayWait self.old client parcel }
        ensures { IsBlockDone self.old client parcel self.new }
    {
        let size = parcel.bytes().len();
        self.make_room(size);
        if self.waiting.has_room(size) {
            self.waiting.push(WaitingBlock { client, parcel });
        } else {
            self.draw_now(client, &parcel);
        }
    }

    /// Draws all blocks that wait, and carries out the parcel: see `Canvas::carry_out`.
    pub(crate) fn carry_out(&mut self, client: u8, parcel: Parcel) -> Option<Vertices>
        requires client { client < canvas_clients self.old.drawn }
        requires work { is_work parcel.act ≡ true }
        ensures same { IsSameTile self.old.drawn self.new.drawn }
        ensures done { may_come self.old.drawn parcel ≡ true → IsDoneIn self.old client parcel self.new }
        ensures ignored { may_come self.old.drawn parcel ≡ false → board_in self.new ≡ board_in self.old }
    {
        self.draw_all();
        self.drawn.carry_out(client, parcel)
    }

    /// Draws all blocks that wait, and copies the pixels, as the tile's part of a frame.
    pub(crate) fn part(&mut self, frame: u32) -> Result<TilePart, OutOfMemory>
        ensures same { IsSameBoard self.old self.new }
        ensures part { IfOk result (IsPartOf self.old.drawn.layout self.old.drawn.tile frame (board_in self.old)) }
    {
        self.draw_all();
        self.drawn.part(frame)
    }
}
