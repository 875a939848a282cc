//! What the triangles of a block are drawn with.
ghost use Rattle.std.proofs.Props.{props};
ghost use Rattle.geometry.specs.Beside.{AreSurrounds};
ghost use Rattle.geometry.specs.Placed.{AreIdentities};
ghost use Rattle.geometry.specs.Rejected.{AreClipBoundsIfAny, AreClipBoundsIfAny-prop};
ghost use Rattle.textures.specs.Images.{HasTexelIfAny};
ghost use Rattle.raster.specs.Clips.{IsPartWhere, is_let_through};
ghost use Rattle.draw_device.specs.Plans.{IsPlan, IsPlan-prop, HasTexelIfAny-prop};
ghost use Rattle.draw_device.specs.Shapes.{grid_rect};

use crate::grid::Extent;
use crate::plan::Plan;
use geometry::{ClipBounds, Identities, Surrounds};
use rc_base::state::State;
use rc_base::window::Rect;
use textures::Texture;

/// The state and the texture of a block, the part of a grid's rectangle that lets its triangles through, what surrounds the part, what is known of the
/// state, and, where many triangles may lie beside, what bounds the part by clip coordinates.
#[derive(Drop)]
pub struct BlockSetup<'a> {
    pub state: &'a State,
    pub texture: &'a Texture,
    pub plan: &'a Plan,
    pub extent: Extent,
    pub part: Rect,
    pub near: Surrounds,
    pub identities: Identities,
    pub bounds: Option<ClipBounds>,
    pub ghost planned: { IsPlan state.now plan.now } by { IsPlan-prop state.now plan.now },
    pub ghost texel: { HasTexelIfAny texture.now } by { HasTexelIfAny-prop texture.now },
    pub ghost within: { IsPartWhere (grid_rect extent) part (is_let_through state.now) } by { Prim.hlevel props },
    pub ghost beside: { AreSurrounds part near } by { Prim.hlevel props },
    pub ghost products: { AreIdentities state.now identities },
    pub ghost bounded: { AreClipBoundsIfAny state.now near bounds } by { AreClipBoundsIfAny-prop state.now near bounds },
}
