//! What spans, triangles and blocks make of a grid of pixels.
ghost use Rattle.std.specs.Prelude.{◌≡◌, ◌+◌, ◌*◌, ◌<◌, ◌≤◌, length, ℤ, pos, ◌≤ℤ◌, ◌<ℤ◌, true, Some, IfOk, IfSome, MatchOption};
ghost use Rattle.rc_base.specs.Cluster.Tiles.{is_in_rect};
ghost use Rattle.rc_base.specs.Drawing.Cover.{is_inside};
ghost use Rattle.rc_base.specs.Drawing.PixelStep.{clear_step};
ghost use Rattle.rc_base.specs.Drawing.Kept.{kept_whole};
ghost use Rattle.rc_base.specs.Drawing.Triangles.{cut_modes};
ghost use Rattle.geometry.specs.Beside.{IsBesideIfKept};
ghost use Rattle.geometry.specs.Items.{AreBelow};
ghost use Rattle.geometry.specs.Listed.{listed, listed_block};
ghost use Rattle.geometry.specs.Pieces.{found, found_in};
ghost use Rattle.raster.specs.Clips.{IsPart};
ghost use Rattle.raster.specs.Colors.{AreFlat, IsColorPlane};
ghost use Rattle.raster.specs.Spans.{IsOnlyColumn};
ghost use Rattle.textures.specs.Images.{HasTexelIfAny};
ghost use Rattle.draw_device.specs.Prepared.{IsPreparedFor};
ghost use Rattle.draw_device.specs.Shapes.{IsSpanIn, AreRowsOf, IsCacheOf, drawn_step, grid_rect, span_step};
ghost use Rattle.draw_device.specs.Conditions.{IsClearable};
ghost use Rattle.draw_device.specs.Columns.{IsOnlyRun};
ghost use Rattle.draw_device.specs.Devices.{pixel_index};
ghost use Rattle.draw_device.specs.Grids.{IsDrawnBy, IsDrawnInPlace, grid_pixel, grid_pixels};
ghost use Rattle.draw_device.specs.Setups.{AreStoredIn, IsDrawnIn, IsPaintIn, IsPaintedIn, IsStoredRun, block_of, corners_of, covered_by, fragment_by, pieces_of, triangle_of, triangles_of};

use crate::block_setup::BlockSetup;
use crate::clear_setup::ClearSetup;
use crate::clears::clear_row;
use crate::column_run::ColumnRun;
use crate::columns::{color_rise, fill_column, is_few, step_column};
use crate::grid::Grid;
use crate::paint::Paint;
use crate::prepare::{
    has_few, is_tiny, shading_of, shared_at, source_of, stores_colors, takes_no_test, tests_of,
    untextured_color,
};
use crate::prepared::Prepared;
use crate::rows::draw_row;
use crate::setup::Setup;
use crate::source::Source;
use crate::stages::Stages;
use crate::tests::Tests;
use fragment_ops::clearing_of;
use geometry::{ListedBlock, Pieces, Uncut, VertexCache, VertexList, pieces};
use raster::{
    ColorPlane, Column, SpanIter, color_plane, cover_lies_in_bounds, covered_part, flat_color,
    scissored, spans,
};
use rc_base::command::Rgba;
use rc_base::out_of_memory::OutOfMemory;
use rc_base::state::{CUT_MODES, State};
use rc_base::triangle::WindowTriangle;
use rc_base::window::{Pixel, Pixels, Rect, Span, row_start};
use std::alloc::Global;
use textures::Texture;

/// How far a column or row lies from another.
pub(crate) fn offset(a: i32, from: u16) -> u16
    requires low { pos from ≤ℤ a }
    requires high { a ≤ℤ pos 65535 }
    ensures { a ≡ pos (from + result) }
{
    (a - i32::from(from)) as u16
}

// The spans of a triangle in a part.
#[inline(always)]
fn rows_of(tri: &WindowTriangle, part: Rect) -> SpanIter<'_>
    ensures { AreRowsOf tri.now part result }
{
    spans(tri, part)
}

impl Grid {
    // Draws the pixels of a span of a triangle.
    fn draw_span(&mut self, triangle: &Setup<'_>, span: Span)
        requires triangle { IsPaintedIn triangle.now self.old.extent }
        requires inside { IsSpanIn self.old.extent span }
        requires covered { (x : ℤ) → span.x0 ≤ℤ x → x <ℤ span.x1
            → is_inside triangle.now.tri.now.v x span.y ≡ true }
        ensures { IsDrawnInPlace (span_step (fragment_by triangle.now) span) self.old self.new }
    {
        let _height = self.extent.height;
        let up = offset(span.y, self.extent.bottom);
        let from = offset(span.x0, self.extent.left);
        let to = offset(span.x1, self.extent.left);
        let start = row_start(self.extent.width, up);
        let end = start + self.extent.width as usize;
        draw_row(
            &mut self.colors.as_mut_slice()[start..end],
            &mut self.depths.as_mut_slice()[start..end],
            &mut self.spare,
            triangle,
            up,
            from,
            to,
        );
    }

    // Draws the spans of a triangle in the part of the grid's rectangle that lets it through.
    fn draw_rows(&mut self, triangle: &Setup<'_>, rows: SpanIter<'_>)
        requires part { IsDrawnIn triangle.now self.old.extent rows.rect }
        requires rows { AreRowsOf triangle.now.tri.now rows.rect rows }
        ensures { IsDrawnInPlace (covered_by triangle.now) self.old self.new }
    {
        'rows: for span in rows {
            self.draw_span(triangle, span);
        }
    }

    // A column's rows, unless there are so many that a step of a plane to them is one too many.
    fn column_run(&self, tri: &WindowTriangle, part: Rect, column: Column) -> Option<ColumnRun>
        requires part { IsPart (grid_rect self.now.extent) part }
        requires column { IsOnlyColumn tri.now.v part column }
        ensures { IfSome result (λ r. IsOnlyRun tri.now.v self.now.extent part r) }
    {
        let _tri = tri;
        let _part = part;
        let _height = self.extent.height;
        let across = offset(column.x, self.extent.left);
        let from = offset(column.y0, self.extent.bottom);
        let to = offset(column.y1, self.extent.bottom);
        if !is_few(across, to) {
            return None;
        }
        Some(ColumnRun {
            left: self.extent.left,
            bottom: self.extent.bottom,
            width: self.extent.width,
            across,
            from,
            to,
        })
    }

    // The same of a triangle's only column in a part, where it is known that there is one.
    fn only_column(
        &self,
        tri: &WindowTriangle,
        part: Rect,
        rows: &SpanIter<'_>,
    ) -> Option<ColumnRun>
        requires part { IsPart (grid_rect self.now.extent) part }
        requires rows { AreRowsOf tri.now part rows.now }
        ensures { IfSome result (λ r. IsOnlyRun tri.now.v self.now.extent part r) }
    {
        let Some(column) = rows.column() else {
            return None;
        };
        self.column_run(tri, part, column)
    }

    // Draws a triangle of one column and one colour that is stored alone.
    fn draw_filled_column(&mut self, triangle: &Setup<'_>, part: Rect, run: ColumnRun, color: Rgba)
        requires run { IsStoredRun triangle.now self.old.extent part run }
        requires color { AreFlat triangle.now.tri.now.v color }
        ensures { IsDrawnInPlace (covered_by triangle.now) self.old self.new }
    {
        let _triangle = triangle;
        let _part = part;
        fill_column(self.colors.as_mut_slice(), run, color);
    }

    // Draws a triangle of one column and several colours that are stored alone.
    fn draw_stepped_column(
        &mut self,
        triangle: &Setup<'_>,
        part: Rect,
        run: ColumnRun,
        plane: &ColorPlane,
    )
        requires run { IsStoredRun triangle.now self.old.extent part run }
        requires plane { IsColorPlane triangle.now.tri.now.v
            (pos self.old.extent.left) (pos self.old.extent.bottom) plane.now }
        ensures { IsDrawnInPlace (covered_by triangle.now) self.old self.new }
    {
        let _part = part;
        let first = color_rise(plane, run);
        step_column(self.colors.as_mut_slice(), triangle.tri, run, first);
    }

    // Draws a triangle in a part by the way that was settled for it.
    fn draw_painted(&mut self, triangle: &Setup<'_>, part: Rect)
        requires { IsDrawnIn triangle.now self.old.extent part }
        ensures { IsDrawnInPlace (covered_by triangle.now) self.old self.new }
    {
        let rows = rows_of(triangle.tri, part);
        match (self.only_column(triangle.tri, part, &rows), triangle.paint) {
            (Some(run), Paint::Fill(color)) => self.draw_filled_column(triangle, part, run, color),
            (Some(run), Paint::Store(plane)) => self.draw_stepped_column(
                triangle, part, run, plane,
            ),
            _ => self.draw_rows(triangle, rows),
        }
    }

    // Draws a triangle in a part by the way that was settled for it.
    fn draw_settled<'s>(
        &mut self,
        setup: &BlockSetup<'_>,
        tri: &'s WindowTriangle,
        paint: Paint<'s>,
    )
        requires { IsPaintIn setup.now self.old.extent tri.now paint }
        ensures { IsDrawnInPlace (triangle_of setup.now tri.now) self.old self.new }
    {
        let triangle = Setup {
            state: setup.state,
            texture: setup.texture,
            plan: setup.plan,
            tri,
            extent: self.extent,
            paint,
        };
        self.draw_painted(&triangle, setup.part);
    }

    // Draws a triangle of several colours that are stored alone. It is compiled for itself, since the plane takes room at its entry.
    #[inline(never)]
    fn draw_stored(&mut self, setup: &BlockSetup<'_>, tri: &WindowTriangle)
        requires { AreStoredIn setup.now self.old.extent tri.now }
        ensures { IsDrawnInPlace (triangle_of setup.now tri.now) self.old self.new }
    {
        if is_tiny(tri) {
            let shading = shading_of(setup.state, setup.texture, setup.plan, tri);
            self.draw_settled(setup, tri, Paint::Pixels(shading));
            return;
        }
        let shared = shared_at(tri, self.extent.left, self.extent.bottom);
        let plane = color_plane(tri, &shared);
        let paint = Paint::Store(&plane);
        self.draw_settled(setup, tri, paint);
    }

    // Draws a triangle in stages. It is compiled for itself, since planes take room at its entry.
    #[inline(never)]
    fn draw_in_stages(&mut self, setup: &BlockSetup<'_>, tri: &WindowTriangle)
        requires grid { setup.now.extent ≡ self.old.extent }
        ensures { IsDrawnInPlace (triangle_of setup.now tri.now) self.old self.new }
    {
        let flat = untextured_color(setup.texture, tri);
        if let Some(color) = flat {
            if takes_no_test(setup.state, setup.plan, tri) {
                let source = Source::Flat(color);
                let tests = Tests::Off;
                let paint = Paint::Stages(Stages {
                    source: &source,
                    tests: &tests,
                });
                self.draw_settled(setup, tri, paint);
                return;
            }
        }
        if is_tiny(tri) {
            let shading = shading_of(setup.state, setup.texture, setup.plan, tri);
            self.draw_settled(setup, tri, Paint::Pixels(shading));
            return;
        }
        let shared = shared_at(tri, self.extent.left, self.extent.bottom);
        let source = source_of(setup.state, setup.texture, setup.plan, tri, flat, &shared);
        let tests = tests_of(setup.state, setup.plan, tri, &shared);
        let paint = Paint::Stages(Stages {
            source: &source,
            tests: &tests,
        });
        self.draw_settled(setup, tri, paint);
    }

    // Draws a triangle in the part of the grid's rectangle that lets it through.
    #[inline(always)]
    fn draw_triangle(&mut self, setup: &BlockSetup<'_>, tri: &WindowTriangle)
        requires grid { setup.now.extent ≡ self.old.extent }
        ensures { IsDrawnInPlace (triangle_of setup.now tri.now) self.old self.new }
    {
        let Some(part) = covered_part(tri, setup.part) else {
            return;
        };
        let stores = stores_colors(setup.state, setup.texture, setup.plan, tri);
        if has_few(part, stores) {
            self.draw_few(setup, tri, part);
            return;
        }
        if !stores {
            self.draw_in_stages(setup, tri);
            return;
        }
        match flat_color(tri) {
            Some(color) => {
                let paint = Paint::Fill(color);
                self.draw_settled(setup, tri, paint);
            }
            None => self.draw_stored(setup, tri),
        }
    }

    // Draws the triangle of three vertices, where there is one: it is kept and doesn't lie beside the part.
    #[inline(always)]
    fn draw_near(
        &mut self,
        setup: &BlockSetup<'_>,
        tri: Option<WindowTriangle>,
        vertices: &VertexList<'_>,
        corners: [usize; 3],
    )
        requires grid { setup.now.extent ≡ self.old.extent }
        requires near { MatchOption tri
            (IsBesideIfKept setup.now.state.now (listed vertices.now) corners setup.now.near)
            (λ t. kept_whole setup.now.state.now (listed vertices.now) corners ≡ Some t.v) }
        ensures { IsDrawnInPlace (corners_of setup.now (listed vertices.now) corners) self.old self.new }
    {
        let _vertices = vertices;
        let _corners = corners;
        cover_lies_in_bounds();
        let Some(tri) = tri else {
            return;
        };
        self.draw_triangle(setup, &tri);
    }

    // Draws the triangle of three vertices, where it is kept and doesn't lie beside the part.
    fn draw_corners(
        &mut self,
        setup: &BlockSetup<'_>,
        cache: &mut VertexCache<'_>,
        corners: [usize; 3],
    )
        requires grid { setup.now.extent ≡ self.old.extent }
        requires state { cache.old.state.now ≡ setup.now.state.now }
        requires corners { AreBelow (length (listed cache.old.vertices)) corners }
        ensures cache { IsCacheOf cache.old.state.now (listed cache.old.vertices) cache.new }
        ensures drawn { IsDrawnInPlace (corners_of setup.now (listed cache.old.vertices) corners)
            self.old self.new }
    {
        let tri = cache.triangle_near(corners, &setup.near, &setup.bounds);
        self.draw_near(setup, tri, &cache.vertices, corners);
    }

    // Draws the triangles of a block of a mode whose triangles aren't cut. A vertex that several triangles share is brought to the window once.
    fn draw_whole(&mut self, setup: &BlockSetup<'_>, block: &ListedBlock<'_>)
        requires mode { block.now.mode < cut_modes }
        requires grid { setup.now.extent ≡ self.old.extent }
        ensures { IsDrawnInPlace (block_of setup.now (listed_block block.now)) self.old self.new }
    {
        // A copy that nothing else sees, so that its mode is judged once.
        let block = *block;
        let mut cache = VertexCache::with(setup.state, setup.identities, block.vertices);
        let count = block.triangle_count();
        'draws: for i in 0..count {
            let corners = block.corners(i);
            self.draw_corners(setup, &mut cache, corners);
        }
    }

    // Draws a triangle, if there is one. It is compiled for itself: few triangles are cut, and the loop of those that aren't has the drawing in line.
    #[inline(never)]
    fn draw_found(&mut self, setup: &BlockSetup<'_>, tri: &Option<WindowTriangle>)
        requires grid { setup.now.extent ≡ self.old.extent }
        ensures { IsDrawnInPlace (triangles_of setup.now (found tri.now)) self.old self.new }
    {
        if let Some(t) = tri {
            self.draw_triangle(setup, t);
        }
    }

    // Draws the pieces of a triangle, one after the other.
    fn draw_pieces(&mut self, setup: &BlockSetup<'_>, given: &Pieces)
        requires grid { setup.now.extent ≡ self.old.extent }
        ensures { IsDrawnInPlace (triangles_of setup.now (found_in given.now)) self.old self.new }
    {
        self.draw_found(setup, &given.first);
        self.draw_found(setup, &given.second);
    }

    // Draws the triangle of three vertices of a block of any mode, or its pieces where it may be cut.
    fn draw_cut_corners(
        &mut self,
        setup: &BlockSetup<'_>,
        block: &ListedBlock<'_>,
        cache: &mut VertexCache<'_>,
        corners: [usize; 3],
    )
        requires grid { setup.now.extent ≡ self.old.extent }
        requires cache { IsCacheOf setup.now.state.now (listed block.now.vertices) cache.old }
        requires corners { AreBelow (length (listed block.now.vertices)) corners }
        ensures cache { IsCacheOf setup.now.state.now (listed block.now.vertices) cache.new }
        ensures drawn { IsDrawnInPlace (pieces_of setup.now (listed_block block.now) corners) self.old self.new }
    {
        match cache.uncut_near(corners, &setup.near, &setup.bounds) {
            Uncut::Whole(tri) => {
                self.draw_near(setup, tri, &block.vertices, corners);
            }
            Uncut::No => {
                let three = block.vertices.three(corners);
                let given = pieces(setup.state, block.mode, &three);
                self.draw_pieces(setup, &given);
            }
        }
    }

    // Draws the triangles of a block of any mode. Those that the near plane doesn't cut go the way of those that are drawn whole.
    fn draw_cut(&mut self, setup: &BlockSetup<'_>, block: &ListedBlock<'_>)
        requires grid { setup.now.extent ≡ self.old.extent }
        ensures { IsDrawnInPlace (block_of setup.now (listed_block block.now)) self.old self.new }
    {
        let block = *block;
        let mut cache = VertexCache::with(setup.state, setup.identities, block.vertices);
        let count = block.triangle_count();
        'cuts: for i in 0..count {
            let corners = block.corners(i);
            self.draw_cut_corners(setup, &block, &mut cache, corners);
        }
    }

    /// Draws the kept triangles of a block, one after the other, with the texture that the state samples.
    pub fn draw(
        &mut self,
        state: &State,
        prepared: &Prepared,
        texture: &Texture,
        block: &ListedBlock<'_>,
    )
        requires texel { HasTexelIfAny texture.now }
        requires prepared { IsPreparedFor state.now (grid_rect self.old.extent) prepared.now }
        ensures extent { self.new.extent ≡ self.old.extent }
        ensures drawn { IsDrawnBy (drawn_step state.now texture.now (listed_block block.now)) self.old self.new }
    {
        let setup = BlockSetup {
            state,
            texture,
            plan: &prepared.plan,
            extent: self.extent,
            part: prepared.part,
            near: prepared.near,
            identities: prepared.identities,
            bounds: prepared.bounds_for(state, block),
        };
        if block.mode < CUT_MODES {
            self.draw_whole(&setup, block);
        } else {
            self.draw_cut(&setup, block);
        }
    }

    /// Clears the pixels that the scissor box lets through.
    pub fn clear(&mut self, state: &State, mask: u8)
        requires { IsClearable state.now }
        ensures extent { self.new.extent ≡ self.old.extent }
        ensures drawn { IsDrawnBy (clear_step state.now mask) self.old self.new }
    {
        let part = scissored(state, self.extent.rect());
        if part.x1 <= part.x0 || part.y1 <= part.y0 {
            return;
        }
        let from = offset(part.x0, self.extent.left);
        let to = offset(part.x1, self.extent.left);
        let first = offset(part.y0, self.extent.bottom);
        let last = offset(part.y1, self.extent.bottom);
        let setup = ClearSetup {
            state,
            mask,
            clearing: clearing_of(state, mask),
        };
        for row in first..last {
            let start = row_start(self.extent.width, row);
            let end = start + self.extent.width as usize;
            clear_row(
                &mut self.colors.as_mut_slice()[start..end],
                &mut self.depths.as_mut_slice()[start..end],
                &setup,
                from,
                to,
            );
        }
    }

    /// The pixel of a column and a row of the window.
    pub fn pixel(&self, x: i32, y: i32) -> Pixel
        requires { is_in_rect (grid_rect self.now.extent) x y ≡ true }
        ensures { result ≡ grid_pixel self.now (pixel_index (grid_rect self.now.extent) x y) }
    {
        let column = offset(x, self.extent.left);
        let row = offset(y, self.extent.bottom);
        let index = row_start(self.extent.width, row) + column as usize;
        Pixel {
            color: self.colors[index],
            depth: self.depths[index],
        }
    }
    /// A copy of the pixels.
    pub fn copy(&self, alloc: Global) -> Result<Pixels, OutOfMemory>
        ensures { IfOk result (λ p. p ≡ grid_pixels self.now) }
    {
        let colors = self.colors.as_slice();
        let depths = self.depths.as_slice();
        let mut pixels = Vec::with_capacity(alloc, colors.len())?;
        for k in 0..colors.len() {
            pixels.push_reserved(Pixel {
                color: colors[k],
                depth: depths[k],
            });
        }
        Ok(Pixels::from_vec(pixels))
    }
}
