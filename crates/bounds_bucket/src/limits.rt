//! The layout of a window that a command line asks for.
ghost use Rattle.std.specs.Prelude.{◌≡◌, MatchResult, IfOk, Some, None};
ghost use Rattle.rc_base.specs.Formats.Limits.{layout_limit};
ghost use Rattle.rc_base.specs.Formats.Within.{IsLayoutFor};
ghost use Rattle.rc_base.specs.declared.scene.Scene.{Scene};

use rc_base::scene::{Limit, judge};
use rc_base::window::Layout;

/// Cuts a window of `width` by `height` pixels into `columns` by `rows` tiles, for lanes of `depth` items: a limit exactly where one of the
/// four quantities of a layout is outside its range (`docs/scene-format.md`), and then the first of them in the table. A cluster can run a scene
/// of these sides on it.
#[tactic(auto, unfolding(rc_base::specs::Formats::Limits::layout_limit))]
pub fn layout(width: u16, height: u16, columns: u64, rows: u64, depth: u64) -> Result<Layout, Limit>
    ensures layout { MatchResult result
        (λ l. (layout_limit width height columns rows depth ≡ None) × (l ≡ record { width = width; height = height; columns = columns; rows = rows }))
        (λ e. layout_limit width height columns rows depth ≡ Some e) }
    ensures fits { IfOk result (λ l. (scene : Scene)
        → scene.decl.width ≡ width → scene.decl.height ≡ height → IsLayoutFor scene l depth) }
{
    judge(14, columns, 1, u64::from(width).min(8))?;
    judge(15, rows, 1, u64::from(height).min(8))?;
    judge(16, columns * rows, 1, 32)?;
    judge(17, depth, 1, 16)?;
    Ok(Layout {
        width,
        height,
        columns: columns as u8,
        rows: rows as u8,
    })
}
