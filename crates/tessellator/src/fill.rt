//! Filling a path, taken to be closed.
pub mod textured;

ghost use Rattle.std.specs.Prelude.{◌≡◌, ◌≤◌, length};
ghost use Rattle.emath.specs.Plane as plane;
ghost use Rattle.path.specs.Held.{held};
ghost use Rattle.tessellator.specs.Faults.{told};
ghost use Rattle.tessellator.specs.Fills as fills;
ghost use Rattle.tessellator.specs.Outcome.{Drawn, Grows, KindFits, Sized, after, outcome, sizing};
ghost use Rattle.tessellator.specs.State.{mesh_state, vertex_room, with_vertices};

use crate::brush::{Brush, Plain};
use crate::draw::draw_rows;
use crate::fault::{Appended, FigureFault};
use crate::kind::Kind;
use crate::mesh::Mesh;
use crate::row::{Paint, Row};
use ecolor::color::Color32;
use emath::limits::{all_places, is_distance};
use path::path::Path;
use path::point::{PathPoint, Side};

/// The softness of a fill's edge, and its colour.
#[derive(Clone, Copy)]
pub(crate) struct Filling {
    pub(crate) feathering: f32,
    pub(crate) color: Color32,
}

impl Filling {
    /// A transparent fill and one of fewer than three points append nothing.
    fn is_empty(self, points: usize) -> bool
        ensures { result ≡ fills.is_unfilled self.color points }
    {
        self.color.is_transparent() || points < 3
    }

    pub(crate) fn kind(self, points: usize) -> Kind
        ensures { result ≡ fills.fill_kind self.feathering self.color points }
    {
        if self.is_empty(points) {
            Kind::Nothing
        } else if 0.0 < self.feathering {
            Kind::FeatheredFill
        } else {
            Kind::HardFill
        }
    }

    fn hard_rows(self) -> [Row; 1]
        ensures { result ≡ fills.hard_fill_rows self.color }
    {
        [Row {
            side: Side::Along,
            paint: Paint::Flat(self.color),
        }]
    }

    fn feathered_rows(self) -> [Row; 2]
        ensures { result ≡ fills.feathered_fill_rows self.feathering self.color }
    {
        let half = 0.5 * self.feathering;
        [
            Row {
                side: Side::Inward(half),
                paint: Paint::Flat(self.color),
            },
            Row {
                side: Side::Outward(half),
                paint: Paint::Flat(Color32::TRANSPARENT),
            },
        ]
    }

    // Its sizing and its drawing go as a pen's do: a trait for both would be longer than these lines.
    /// What the fill would append, with space enough.
    fn size(self, path: &Path) -> Result<Appended, FigureFault>
        ensures { told result ≡ sizing (fills.fill_allowed self.feathering (held path.now).used) (fills.fill_figure self.feathering self.color (held path.now).used) }
    {
        let points = path.as_slice();
        if !is_distance(self.feathering) || !all_places(points) {
            return Err(FigureFault::OutOfLimits);
        }
        let n = points.len();
        Ok(self.kind(n).size(n))
    }

    /// Appends the fill, and leaves a feathered one's points clockwise.
    pub(crate) fn draw<B: Brush>(self, path: &mut Path, brush: &B, out: &mut Mesh)
        requires { KindFits (fills.fill_kind self.feathering self.color (length (held path.old).used)) (length (held path.old).used) (mesh_state out.old) }
        ensures { Drawn (fills.filled_with (B.paints brush.now) self.feathering self.color (held path.old).used) (held path.old) (mesh_state out.old) (held path.new) (mesh_state out.new) }
    {
        if self.is_empty(path.as_slice().len()) {
            return;
        }
        if 0.0 < self.feathering {
            path.turn_clockwise();
            draw_rows(
                path,
                &self.feathered_rows(),
                brush,
                Kind::FeatheredFill,
                out,
            );
        } else {
            draw_rows(path, &self.hard_rows(), brush, Kind::HardFill, out);
        }
    }

    /// The vertices of a hard fill of this colour within a stroke.
    pub(crate) fn add_inner(self, points: &[PathPoint], out: &mut Mesh)
        requires { length (fills.fill_figure plane.zero self.color points.now).vertices ≤ vertex_room (mesh_state out.old) }
        ensures { mesh_state out.new ≡ with_vertices (mesh_state out.old) (fills.fill_figure plane.zero self.color points.now).vertices }
    {
        if !self.is_empty(points.len()) {
            out.add_rows(points, &self.hard_rows(), &Plain);
        }
    }
}

/// What filling the path would append, with space enough.
pub fn size_of_fill(path: &Path, feathering: f32, color: Color32) -> Result<Appended, FigureFault>
    ensures { told result ≡ sizing (fills.fill_allowed feathering (held path.now).used) (fills.fill_figure feathering color (held path.now).used) }
{
    Filling { feathering, color }.size(path)
}

/// Fills the path, whole or not at all. A feathered fill of a path that runs counterclockwise turns it.
pub fn fill(
    path: &mut Path,
    feathering: f32,
    color: Color32,
    out: &mut Mesh,
) -> Result<Appended, FigureFault>
    ensures outcome { after result path.new out.new ≡ outcome (fills.fill_allowed feathering (held path.old).used) (fills.fill_figure feathering color (held path.old).used) (held path.old) (mesh_state out.old) }
    ensures grows { Grows (told result) (held path.old) (mesh_state out.old) (held path.new) (mesh_state out.new) }
    ensures sized { Sized (told result) (sizing (fills.fill_allowed feathering (held path.old).used) (fills.fill_figure feathering color (held path.old).used)) (mesh_state out.old) }
{
    let fill = Filling { feathering, color };
    let size = fill.size(path)?;
    out.reserve(size)?;
    fill.draw(path, &Plain, out);
    Ok(size)
}
