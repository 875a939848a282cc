//! What the tiles were last told by one client.
ghost use Rattle.std.specs.Prelude.{◌≡◌, ◌≢◌, ◌<◌, ◌≤◌, ◌+◌, ◌^◌, ◌==◌, ◌&&◌, ◌||◌, not, false, ℕ, [], length, replicate, IfOk, IsOk, OnOk, OnErr};
ghost use Rattle.dirty_bits.specs.Bits.{is_dirty};
ghost use Rattle.rc_base.specs.Contexts.Elements.{default_value, element_count};
ghost use Rattle.rc_base.specs.Cluster.Looks.{looks_for};
ghost use Rattle.rc_base.specs.Cluster.Parcels.{sets_for};
ghost use Rattle.rc_base.specs.declared.state.ElementValue.{ElementValue};
ghost use Rattle.state_update.specs.Knowledge.{AreExaminedTold, HasBoundTexture, IsPrivateName, IsSettled, Knows, after_sets, is_examined, pending};

use crate::examination::Examination;
use crate::images::image_examined;
use crate::told::Told;
use dirty_bits::{Dirty, Looks};
use element_table::{SCALAR_COUNT, image_element};
use gl_context::Context;
use rc_base::out_of_memory::OutOfMemory;
use rc_base::scene::Decl;
use rc_base::state::Sets;
use std::alloc::Global;
use std::marker::Model;

/// What each tile was last told of one client's elements, and which elements are pending to which tile. It takes about 600 bytes a tile, and no
/// texels.
#[derive(Drop)]
pub struct Tracker {
    alloc: Global,
    tiles: Vec<Told>,
    dirty: Dirty,
}

impl Model for Tracker {
    ghost use Rattle.state_update.specs.Knowledge.{Tracked};

    ghost Value = { Tracked };

    ghost view = { λ a. record { told = a.tiles.items; bits = a.dirty } };
}

impl Tracker {
    /// Each tile was told the defaults, and no image, and nothing is pending.
    pub fn new(alloc: Global, decl: &Decl, tiles: u8) -> Result<Tracker, OutOfMemory>
        ensures count { IfOk result (λ t. length t.told ≡ tiles) }
        ensures told { (tile : ℕ) → tile < tiles
            → IfOk result (λ t. Knows t tile (default_value decl.now)) }
        ensures clean { IfOk result (λ t. (tile e : ℕ) → pending t tile e ≡ false) }
    {
        let first = Told::first(decl);
        Ok(Tracker {
            alloc,
            tiles: many(alloc, first, tiles)?,
            dirty: Dirty::new(),
        })
    }

    /// Notes that an accepted command set an element, to an equal value too: it is pending to every tile.
    pub fn note(&mut self, element: u8)
        requires { element < element_count }
        ensures told { self.new.told ≡ self.old.told }
        ensures marked { (tile e : ℕ) → tile < 32
            → pending self.new tile e ≡ (e == element || pending self.old tile e) }
    {
        self.dirty.mark(element);
    }

    /// The sets that a tile gets before a block (`draws`) or a Clear of this context, in the order of the elements: each scalar element that
    /// differs from what the tile was last told, and for a block the image of the private texture that it samples, where its edit number
    /// differs. Only elements that are pending to the tile are compared, and where none is nothing is done; each test of a bit is a look. The tile
    /// counts as told, and what was examined is no longer pending to it. An image is copied only where it is among the sets, and where nothing
    /// differs no memory is taken. Where memory is wanting, nothing is changed but the looks.
    pub fn update(
        &mut self,
        context: &Context,
        tile: u8,
        draws: bool,
        looks: &mut Looks,
    ) -> Result<Sets, OutOfMemory>
        requires tile { tile < length self.old.told }
        requires server { tile < 32 }
        requires bound { HasBoundTexture context.now }
        requires settled { IsSettled self.old tile context.now }
        requires room { looks.old < 2 ^ 62 }
        ensures count { length self.new.told ≡ length self.old.told }
        ensures sets { (values : ℕ → ElementValue) → Knows self.old tile values
            → IfOk result (λ sets. sets ≡ sets_for values context.now draws) }
        ensures told { (values : ℕ → ElementValue) → Knows self.old tile values → OnOk result
            (Knows self.new tile (after_sets values (sets_for values context.now draws))) }
        ensures quiet { (values : ℕ → ElementValue) → Knows self.old tile values
            → sets_for values context.now draws ≡ [] → IsOk result }
        ensures others { (other : ℕ) (values : ℕ → ElementValue) → other ≢ tile
            → Knows self.old other values → Knows self.new other values }
        ensures pending { OnOk result (AreExaminedTold tile context.now draws self.old self.new) }
        ensures looked { OnOk result (looks.new ≡ looks.old + looks_for (pending self.old tile)) }
        ensures err { OnErr result (self.new ≡ self.old) }
        ensures risen { looks.old ≤ looks.new }
    {
        if !self.dirty.any_dirty(tile, looks) {
            return Ok(Sets::new(self.alloc));
        }
        let image = image_examined(context, draws);
        let told = &self.tiles[usize::from(tile)];
        told.has_each_name();
        let examination = Examination {
            alloc: self.alloc,
            context,
            image,
            told,
            dirty: &self.dirty,
            tile,
        };
        let sets = examination.sets(looks)?;
        self.tiles[usize::from(tile)].tell(context, image);
        clear_examined(&mut self.dirty, image, tile);
        Ok(sets)
    }
}

// The scalar elements, and the image, are no longer dirty for the tile.
fn clear_examined(dirty: &mut Dirty, image: Option<u8>, tile: u8)
    requires named { IsPrivateName image }
    requires server { tile < 32 }
    ensures { (e t : ℕ) → t < 32 → is_dirty dirty.new e t
        ≡ (is_dirty dirty.old e t && not (t == tile && is_examined image e)) }
{
    for element in 0..SCALAR_COUNT {
        dirty.clear(element, tile);
    }
    if let Some(name) = image {
        dirty.clear(image_element(name), tile);
    }
}

// One for each tile.
fn many(alloc: Global, told: Told, tiles: u8) -> Result<Vec<Told>, OutOfMemory>
    ensures { IfOk result (λ v. v.items ≡ replicate tiles told) }
{
    let mut all = Vec::new(alloc);
    all.resize(usize::from(tiles), told)?;
    Ok(all)
}
