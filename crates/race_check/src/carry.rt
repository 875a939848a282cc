//! A command on its way through the tables: what it conflicts with there, and its own marks.
ghost use Rattle.std.specs.Prelude.{◌≡◌, ◌+◌, ◌<◌, ◌^◌, ◌&&◌, nat_lt, None, false};
ghost use Rattle.happens_before.specs.Timelines.{AreOrdered, clock_of};
ghost use Rattle.race_check.specs.Uses.{AreSized, AreVisited, IsCarried, IsVisited};
ghost use Rattle.rc_base.specs.declared.state.Effect.TheVariants as eff;

use crate::clock::clock_of;
use crate::found::Found;
use crate::marks::Marks;
use crate::reach::{is_quiet, sampled_texture};
use crate::touch::{touch_block, touch_clear};
use crate::visit::{Seen, Visit};
use happens_before::Timelines;
use rc_base::command::Part;
use rc_base::scene::Decl;
use rc_base::state::{Block, Effect, State};
use rc_base::sync::Name;

fn has_texel(part: &Part) -> bool
    ensures { result ≡ (nat_lt 0 part.now.w && nat_lt 0 part.now.h) }
{
    part.w > 0 && part.h > 0
}

// Nothing was found, and no pixel was touched.
fn nothing_seen() -> Seen
    ensures best { result.best ≡ None }
    ensures some { result.some ≡ false }
{
    Seen {
        best: None,
        some: false,
    }
}

// A name draws a block: it touches what the block covers, and samples a shared texture where it touches a pixel.
fn carry_block(marks: &mut Marks, visit: &Visit, state: &State, block: &Block) -> Option<Found>
    requires { AreVisited visit.now marks.old }
    ensures sized { AreSized visit.now.width visit.now.height marks.new }
    ensures visited { IsVisited state.now (eff.Block block.now) visit.now marks.old marks.new result }
{
    let seen = touch_block(&mut marks.pixels, visit, state, block, nothing_seen());
    if !seen.some {
        return seen.best;
    }
    match sampled_texture(state) {
        Some(texture) => marks.sample(visit.name, &visit.clock, texture, seen.best),
        None => seen.best,
    }
}

// A name clears the pixels that the scissor box lets it through to.
fn carry_clear(marks: &mut Marks, visit: &Visit, state: &State, mask: u8) -> Option<Found>
    requires { AreVisited visit.now marks.old }
    ensures sized { AreSized visit.now.width visit.now.height marks.new }
    ensures visited { IsVisited state.now (eff.Clear mask) visit.now marks.old marks.new result }
{
    let _mask = mask;
    touch_clear(&mut marks.pixels, visit, state, nothing_seen()).best
}

// A name writes a part of a shared texture, if the part has a texel.
fn carry_part(marks: &mut Marks, visit: &Visit, state: &State, part: &Part) -> Option<Found>
    requires { AreVisited visit.now marks.old }
    ensures sized { AreSized visit.now.width visit.now.height marks.new }
    ensures visited { IsVisited state.now (eff.Shared part.now) visit.now marks.old marks.new result }
{
    let _state = state;
    if !has_texel(part) {
        return None;
    }
    marks.write(visit.name, &visit.clock, part.name)
}

/// A name is carried out, whose command has this effect in this state: what it conflicts with among the names before it, and isn't ordered with, is
/// told, and the tables tell of its own uses.
pub fn carry_out(
    marks: &mut Marks,
    timelines: &Timelines,
    decl: &Decl,
    name: Name,
    state: &State,
    effect: &Effect,
) -> Option<Found>
    requires timelines { AreOrdered timelines.now.clients.items }
    requires client { name.client < 8 }
    requires place { name.place + 1 < 2 ^ 32 }
    requires sized { AreSized decl.now.width decl.now.height marks.old }
    ensures sized { AreSized decl.now.width decl.now.height marks.new }
    ensures carried { let clock = clock_of timelines.now.clients.items name in
        IsCarried state.now effect.now decl.now clock name marks.old marks.new result }
{
    if is_quiet(effect) {
        return None;
    }
    let visit = Visit {
        name,
        clock: clock_of(timelines, name),
        width: decl.width,
        height: decl.height,
    };
    match effect {
        Effect::Block(block) => carry_block(marks, &visit, state, block),
        Effect::Clear(mask) => carry_clear(marks, &visit, state, *mask),
        Effect::Shared(part) => carry_part(marks, &visit, state, part),
        _ => None,
    }
}
