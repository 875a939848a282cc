//! A device whose pixels are written late.
ghost use Rattle.std.specs.Prelude.{◌≡◌};
ghost use Rattle.draw_device.specs.Lazy.{IsWritten, memory_view};

use crate::carry::carry_out;
use crate::device::Device;
use crate::grid::Extent;
use crate::prepared::Prepared;
use crate::room::Room;
use geometry::ListedBlock;
use rc_base::cluster::TilePart;
use rc_base::out_of_memory::OutOfMemory;
use rc_base::state::{Effect, State};
use rc_base::window::Rect;
use std::alloc::Global;
use std::marker::Model;
use std::mem::replace;
use textures::{PrivateSet, SharedSet};

/// Memory for pixels, or the pixels.
#[derive(Drop)]
enum Memory {
    Room(Room),
    Written(Device),
}

impl Memory {
    // Writes blank pixels where none are written yet. This takes no memory.
    #[inline(always)]
    fn write(&mut self, alloc: Global)
        ensures written { IsWritten self.new }
        ensures same { memory_view self.new ≡ memory_view self.old }
    {
        if let Memory::Room(room) = self {
            let room = replace(room, Room::none(alloc));
            *self = Memory::Written(Device::filled(alloc, room));
        }
    }
}

/// A device whose pixels are written when a command first touches them, by the thread that carries it out; until then only their memory is taken.
/// Contracts see it as the device that it is then.
#[derive(Drop)]
pub struct LazyDevice {
    alloc: Global,
    memory: Memory,
}

impl Model for LazyDevice {
    ghost use Rattle.draw_device.specs.Devices.{DeviceView};

    ghost Value = { DeviceView };

    ghost use Rattle.draw_device.specs.Lazy.{memory_view};

    ghost view = { λ a. memory_view a.memory };
}

impl LazyDevice {
    ghost use Rattle.std.specs.Prelude.{◌≡◌, IfOk, length};
    ghost use Rattle.rc_base.specs.Drawing.PixelStep.{effect_step};
    ghost use Rattle.rc_base.specs.declared.command.Part.{Part};
    ghost use Rattle.rc_base.specs.declared.state.Effect.TheVariants as eff;
    ghost use Rattle.geometry.specs.Listed.{listed_block};
    ghost use Rattle.textures.specs.Images.{texture_image};
    ghost use Rattle.draw_device.specs.Conditions.{IsDrawable, IsClearable, TakesBlock, shared_of};
    ghost use Rattle.draw_device.specs.Devices.{IsDeviceRect, IsBlankIn, EachTakes, part_of, rect_size};
    ghost use Rattle.draw_device.specs.Prepared.{IsPreparedFor};
    ghost use Rattle.draw_device.specs.Stored.{IsStorable, set_after};

    /// Memory for the pixels of a rectangle, which are black and transparent, and as far as can be. The rectangle lies from 0 to 65535 in x and y.
    pub fn new(alloc: Global, rect: Rect) -> Result<LazyDevice, OutOfMemory>
        requires { IsDeviceRect rect }
        ensures rect { IfOk result (λ d. d.rect ≡ rect) }
        ensures blank { IfOk result (λ d. IsBlankIn rect d) }
    {
        let room = Room::new(alloc, Extent::of(rect))?;
        Ok(LazyDevice {
            alloc,
            memory: Memory::Room(room),
        })
    }

    /// The device's rectangle.
    pub fn rect(&self) -> Rect
        ensures { result ≡ self.now.rect }
    {
        match &self.memory {
            Memory::Room(room) => room.extent.rect(),
            Memory::Written(device) => device.rect(),
        }
    }

    /// What is settled for all blocks that are drawn with a state.
    pub fn prepare(&self, state: &State) -> Prepared
        ensures { IsPreparedFor state.now self.now.rect result }
    {
        match &self.memory {
            Memory::Room(room) => room.extent.prepare(state),
            Memory::Written(device) => device.prepare(state),
        }
    }

    /// Draws the triangles of a block whose vertices are stored or spelt by bytes, one after the other, with what is settled for the state: each pixel of
    /// the rectangle takes the step of the block. It takes no memory.
    pub fn draw_prepared(
        &mut self,
        state: &State,
        prepared: &Prepared,
        block: &ListedBlock<'_>,
        privates: &PrivateSet,
        shareds: &SharedSet,
    )
        requires drawable { IsDrawable state.now privates.now shareds.now }
        requires prepared { IsPreparedFor state.now self.old.rect prepared.now }
        ensures rect { self.new.rect ≡ self.old.rect }
        ensures drawn { TakesBlock state.now (listed_block block.now) privates.now shareds.now self.old self.new }
    {
        self.memory.write(self.alloc);
        let Memory::Written(device) = &mut self.memory else {
            unreachable!();
        };
        device.draw_prepared(state, prepared, block, privates, shareds);
    }

    /// What [`carry_out`] does to a device.
    pub fn carry_out(
        &mut self,
        effect: &Effect,
        state: &State,
        privates: &PrivateSet,
        shared: &mut SharedSet,
    )
        requires drawable { IsDrawable state.now privates.now shared.old }
        requires clearable { IsClearable state.now }
        requires writable { (part : Part) → effect.now ≡ eff.Shared part → IsStorable part shared.old }
        ensures rect { self.new.rect ≡ self.old.rect }
        ensures drawn { EachTakes (effect_step state.now (texture_image privates.now) (shared_of shared.old) effect.now) self.old self.new }
        ensures shared { shared.new ≡ set_after effect.now shared.old }
    {
        self.memory.write(self.alloc);
        let Memory::Written(device) = &mut self.memory else {
            unreachable!();
        };
        carry_out(effect, state, privates, device, shared);
    }

    /// A copy of the pixels, with these two numbers.
    pub fn part(&self, tile: u8, frame: u32) -> Result<TilePart, OutOfMemory>
        ensures part { IfOk result (λ p. p ≡ part_of tile frame self.now) }
        ensures size { IfOk result (λ p. length p.pixels ≡ rect_size self.now.rect) }
    {
        match &self.memory {
            Memory::Room(room) => Ok(TilePart {
                tile,
                frame,
                pixels: room.pixels(self.alloc)?,
            }),
            Memory::Written(device) => device.part(tile, frame),
        }
    }
}
