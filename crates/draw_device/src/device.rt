//! The device.
ghost use Rattle.std.specs.Prelude.{◌≡◌, ℕ, ◌≤◌, length, ℤ, IfOk, OnOk, true, None, Option};
ghost use Rattle.rc_base.specs.Pictures.{Picture};
ghost use Rattle.rc_base.specs.Cluster.Tiles.{is_in_rect};
ghost use Rattle.rc_base.specs.Drawing.Nearer.{nearer};
ghost use Rattle.rc_base.specs.Drawing.PixelStep.{effect_step};
ghost use Rattle.rc_base.specs.Drawing.Serial.{blank_pixel};
ghost use Rattle.rc_base.specs.declared.state.Effect.TheVariants as eff;
ghost use Rattle.rc_base.specs.declared.window.Pixel.{Pixel};
ghost use Rattle.draw_device.specs.Active.{FitAmong, IsLayerOf};
ghost use Rattle.draw_device.specs.Conditions.{IsDrawable, IsClearable, TakesBlock, sampled_of};
ghost use Rattle.draw_device.specs.Devices.{AreNear, IsDeviceRect, IsBlankIn, EachTakes, part_of, rect_size, pixel_of};
ghost use Rattle.draw_device.specs.Beside.{EachBeside, IsFarBeside};
ghost use Rattle.draw_device.specs.Grids.{blank_view};
ghost use Rattle.draw_device.specs.Pixels.{color_at, pixel_at};
ghost use Rattle.draw_device.specs.Prepared.{IsPreparedFor};
ghost use Rattle.geometry.specs.Listed.{listed_block};

use crate::active::ActivePixels;
use crate::grid::{Extent, Grid};
use crate::pixel_run::PixelRun;
use crate::prepared::Prepared;
use crate::room::Room;
use geometry::{ListedBlock, listed};
use rc_base::cluster::TilePart;
use rc_base::command::Rgba;
use rc_base::out_of_memory::OutOfMemory;
use rc_base::state::{Block, State};
use rc_base::window::{Pixel, Rect};
use std::alloc::Global;
use std::marker::Model;
use textures::{PrivateSet, SharedSet, Texture};

/// A colour and a depth for each pixel of a rectangle of the window.
#[derive(Drop)]
pub struct Device {
    alloc: Global,
    grid: Grid,
}

impl Model for Device {
    ghost use Rattle.draw_device.specs.Devices.{DeviceView};
    ghost use Rattle.draw_device.specs.Grids.{view_of};

    ghost Value = { DeviceView };

    ghost view = { λ a. view_of a.grid };
}

// The texture that a draw samples, or `none`, which has no image.
fn sampled_texture<'a>(
    state: &State,
    privates: &'a PrivateSet,
    shareds: &'a SharedSet,
    none: &'a Texture,
) -> &'a Texture
    requires drawable { IsDrawable state.now privates.now shareds.now }
    requires none { none.now ≡ None }
    ensures { result.now ≡ sampled_of state.now privates.now shareds.now }
{
    if !state.texture_on {
        return none;
    }
    let [kind, name] = state.binding;
    if kind == 1 {
        return shareds.get(name);
    }
    match privates.find(name) {
        Some(texture) => texture,
        None => none,
    }
}

impl Device {
    /// The pixels of a rectangle: black and transparent, and as far as can be. The rectangle lies from 0 to 65535 in x and y.
    pub fn new(alloc: Global, rect: Rect) -> Result<Device, OutOfMemory>
        requires { IsDeviceRect rect }
        ensures rect { IfOk result (λ d. d.rect ≡ rect) }
        ensures blank { IfOk result (λ d. IsBlankIn rect d) }
    {
        let room = Room::new(alloc, Extent::of(rect))?;
        Ok(Device::filled(alloc, room))
    }

    /// The blank pixels of an extent, in memory that was taken for them.
    pub(crate) fn filled(alloc: Global, room: Room) -> Device
        ensures { result ≡ blank_view room.extent }
    {
        Device {
            alloc,
            grid: room.fill(),
        }
    }

    /// The device's rectangle.
    pub fn rect(&self) -> Rect
        ensures { result ≡ self.now.rect }
    {
        self.grid.extent.rect()
    }

    /// Draws the triangles of a block, one after the other: each pixel of the rectangle takes the step of the block.
    pub fn draw(&mut self, state: &State, block: &Block, privates: &PrivateSet, shareds: &SharedSet)
        requires { IsDrawable state.now privates.now shareds.now }
        ensures rect { self.new.rect ≡ self.old.rect }
        ensures drawn { TakesBlock state.now block.now privates.now shareds.now self.old self.new }
    {
        let prepared = self.prepare(state);
        let listed = listed(block);
        self.draw_prepared(state, &prepared, &listed, privates, shareds);
    }

    /// What is settled for all blocks that are drawn with a state: a renderer settles it once for a run of them.
    pub fn prepare(&self, state: &State) -> Prepared
        ensures { IsPreparedFor state.now self.now.rect result }
    {
        self.grid.extent.prepare(state)
    }

    /// What `draw` does, of a block whose vertices are stored or spelt by bytes, with what is settled for the state.
    pub fn draw_prepared(
        &mut self,
        state: &State,
        prepared: &Prepared,
        block: &ListedBlock<'_>,
        privates: &PrivateSet,
        shareds: &SharedSet,
    )
        requires drawable { IsDrawable state.now privates.now shareds.now }
        requires prepared { IsPreparedFor state.now self.old.rect prepared.now }
        ensures rect { self.new.rect ≡ self.old.rect }
        ensures drawn { TakesBlock state.now (listed_block block.now) privates.now shareds.now self.old self.new }
    {
        let none = Texture::empty(self.alloc);
        let texture = sampled_texture(state, privates, shareds, &none);
        self.grid.draw(state, prepared, texture, block);
    }

    /// Clears colour (bit 0 of the mask) and depth (bit 1) of each pixel of the rectangle that the scissor box lets through.
    pub fn clear(&mut self, state: &State, mask: u8)
        requires { IsClearable state.now }
        ensures rect { self.new.rect ≡ self.old.rect }
        ensures drawn { (privates : ℕ → Option Picture) (shareds : ℕ → Picture)
            → EachTakes (effect_step state.now privates shareds (eff.Clear mask)) self.old self.new }
    {
        self.grid.clear(state, mask);
    }

    /// Each pixel of the rectangle becomes that of a layer over the same rectangle, where the layer's is nearer. Only the layer's active pixels are gone
    /// through.
    pub fn take_nearer(&mut self, layer: &ActivePixels)
        requires fit { FitAmong (rect_size self.old.rect) layer.now }
        requires near { AreNear self.old }
        ensures rect { self.new.rect ≡ self.old.rect }
        ensures nearer { (picture : ℤ → ℤ → Pixel) → IsLayerOf self.old.rect picture layer.now
            → EachTakes (λ x y old. nearer old (picture x y)) self.old self.new }
    {
        self.grid.take_nearer(layer);
    }

    /// The pixels of a run become a layer's active pixels. Beside the run nothing was drawn.
    pub fn copy_active(&self, run: PixelRun, layer: &mut ActivePixels) -> Result<(), OutOfMemory>
        requires order { run.from ≤ run.to }
        requires inside { run.to ≤ rect_size self.now.rect }
        requires beside { IsFarBeside run self.now }
        ensures { OnOk result (IsLayerOf self.now.rect (pixel_of self.now) layer.new) }
    {
        layer.copy_run(&self.grid, run)?;
        Ok(())
    }

    /// The run from the first pixel that is nearer than the far end to the last one.
    pub fn drawn(&self) -> PixelRun
        ensures order { result.from ≤ result.to }
        ensures inside { result.to ≤ rect_size self.now.rect }
        ensures beside { IsFarBeside result self.now }
    {
        self.grid.drawn()
    }

    /// Each pixel of the rectangle becomes black and transparent, and as far as can be. Only this run is gone through: each pixel beside it has to
    /// be so.
    pub fn blank(&mut self, run: PixelRun)
        requires order { run.from ≤ run.to }
        requires inside { run.to ≤ rect_size self.old.rect }
        requires beside { EachBeside run self.old.rect
            (λ x y. pixel_of self.old x y ≡ blank_pixel) }
        ensures rect { self.new.rect ≡ self.old.rect }
        ensures blank { EachTakes (λ x y old. blank_pixel) self.old self.new }
    {
        self.grid.blank(run);
    }

    /// The pixel of the rectangle at a column and a row of the window.
    #[tactic(auto, unfolding(crate::specs::Devices::pixel_of))]
    pub fn pixel(&self, x: i32, y: i32) -> Pixel
        requires { is_in_rect self.now.rect x y ≡ true }
        ensures { result ≡ pixel_of self.now x y }
    {
        self.grid.pixel(x, y)
    }

    /// The colours of the rectangle's pixels, row by row from the lowest, each row from the left.
    pub fn colors(&self) -> &[Rgba]
        ensures each { (k : ℕ) → color_at result.now k ≡ (pixel_at self.now.pixels k).color }
        ensures size { length result.now ≡ rect_size self.now.rect }
    {
        self.grid.colors.as_slice()
    }

    /// A copy of the pixels, with these two numbers.
    pub fn part(&self, tile: u8, frame: u32) -> Result<TilePart, OutOfMemory>
        ensures part { IfOk result (λ p. p ≡ part_of tile frame self.now) }
        ensures size { IfOk result (λ p. length p.pixels ≡ rect_size self.now.rect) }
    {
        Ok(TilePart {
            tile,
            frame,
            pixels: self.grid.copy(self.alloc)?,
        })
    }
}
