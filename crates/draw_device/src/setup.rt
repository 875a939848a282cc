//! What a triangle's rows are drawn with.
ghost use Rattle.textures.specs.Images.{HasTexelIfAny};
ghost use Rattle.draw_device.specs.Plans.{IsPlan, IsPlan-prop, HasTexelIfAny-prop};

use crate::grid::Extent;
use crate::paint::Paint;
use crate::plan::Plan;
use rc_base::state::State;
use rc_base::triangle::WindowTriangle;
use textures::Texture;

/// A triangle, the grid's place, the state and the texture that it is drawn with, and what is settled of them for all of its rows.
#[derive(Drop)]
pub struct Setup<'a> {
    pub state: &'a State,
    pub texture: &'a Texture,
    pub plan: &'a Plan,
    pub tri: &'a WindowTriangle,
    pub extent: Extent,
    pub paint: Paint<'a>,
    pub ghost planned: { IsPlan state.now plan.now } by { IsPlan-prop state.now plan.now },
    pub ghost texel: { HasTexelIfAny texture.now } by { HasTexelIfAny-prop texture.now },
}
