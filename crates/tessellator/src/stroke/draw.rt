//! Drawing a stroke over points that lie in its middle.
ghost use Rattle.std.specs.Prelude.{◌≡◌, ◌*◌, ◌≤◌, length};
ghost use Rattle.path.specs.Held.{held};
ghost use Rattle.tessellator.specs.Boxes.{stroke_box};
ghost use Rattle.tessellator.specs.Outcome.{Drawn, mesh_after};
ghost use Rattle.tessellator.specs.State.{mesh_state, with_vertices, vertex_room};
ghost use Rattle.tessellator.specs.Strokes as strokes;
ghost use Rattle.tessellator.specs.Strokes.{StrokeFits};
ghost use Rattle.tessellator.specs.declared.stroke.Style.TheVariants.{Hard, Thin, Thick};

use super::outline::Outline;
use super::pen::Pen;
use super::{Course, Style};
use crate::brush::{Brush, Colored};
use crate::draw::draw_rows;
use crate::fill::Filling;
use crate::kind::Kind;
use crate::mesh::Mesh;
use crate::mesh::vertices::Vertices;
use ecolor::color::Color32;
use ecolor::rule::ColorRule;
use emath::rect::Rect;
use path::path::Path;
use path::point::PathPoint;

impl Style {
    /// A hard stroke of two points has no fill within.
    fn filled_kind(self, points: usize) -> Kind
        ensures { result ≡ strokes.filled_kind self points }
    {
        match self {
            Style::Hard if points < 3 => Kind::Loop(Style::Hard),
            style => Kind::Filled(style),
        }
    }
}

impl Course {
    pub(crate) fn kind(self, style: Style, points: usize) -> Kind
        ensures { result ≡ strokes.kind_of style self points }
    {
        match self {
            Course::Unjoined => Kind::Line(style),
            Course::Around(fill) => {
                if fill.is_transparent() {
                    Kind::Loop(style)
                } else {
                    style.filled_kind(points)
                }
            }
        }
    }
}

impl Outline {
    /// What lies within.
    pub(super) fn fill(self) -> Filling
        ensures { result ≡ record { feathering = self.feathering; color = strokes.fill_of self.course } }
    {
        Filling {
            feathering: self.feathering,
            color: self.course.fill(),
        }
    }

    /// Three rows, the middle one faded.
    fn draw_thin<B: Brush>(self, path: &mut Path, brush: &B, out: &mut Mesh)
        requires { StrokeFits Thin self.course (held path.old).used (mesh_state out.old) }
        ensures { Drawn (strokes.stroke_with Thin (B.paints brush.now) self.feathering self.width self.course (held path.old).used) (held path.old) (mesh_state out.old) (held path.new) (mesh_state out.new) }
    {
        self.swell(path);
        let kind = self.course.kind(Style::Thin, path.as_slice().len());
        draw_rows(path, &self.thin_rows(), brush, kind, out);
    }

    /// The rows of a thick line: at its ends the outer ones lie further out.
    fn add_thick_rows<B: Brush>(self, points: &[PathPoint], brush: &B, out: &mut Mesh)
        requires enough { 2 ≤ length points.now }
        requires space { length points.now * 4 ≤ vertex_room (mesh_state out.old) }
        ensures { mesh_state out.new ≡ with_vertices (mesh_state out.old) (strokes.thick_line self.feathering self.width (B.paints brush.now) points.now) }
    {
        let last = points.len() - 1;
        out.add_rows(&points[0..1], &self.end_rows(self.feathering), brush);
        out.add_rows(
            &points[1..last],
            &self.thick_rows(Color32::TRANSPARENT),
            brush,
        );
        out.add_rows(&points[last..], &self.end_rows(-self.feathering), brush);
    }

    /// Four rows. The ends of a line are feathered too.
    fn draw_thick<B: Brush>(self, path: &Path, brush: &B, out: &mut Mesh)
        requires { StrokeFits Thick self.course (held path.now).used (mesh_state out.old) }
        ensures { mesh_state out.new ≡ mesh_after (strokes.stroke_with Thick (B.paints brush.now) self.feathering self.width self.course (held path.now).used) (mesh_state out.old) }
    {
        let points = path.as_slice();
        let kind = self.course.kind(Style::Thick, points.len());
        match self.course {
            Course::Unjoined => {
                let base = out.next_vertex();
                self.add_thick_rows(points, brush, out);
                let own = Vertices {
                    base,
                    points: points.len() as u32,
                };
                out.add_triangles(own, kind);
            }
            Course::Around(fill) => draw_rows(path, &self.thick_rows(fill), brush, kind, out),
        }
    }

    /// Two rows, both core, and the fill by itself.
    fn draw_hard<B: Brush>(self, path: &mut Path, brush: &B, out: &mut Mesh)
        requires { StrokeFits Hard self.course (held path.old).used (mesh_state out.old) }
        ensures { Drawn (strokes.stroke_with Hard (B.paints brush.now) self.feathering self.width self.course (held path.old).used) (held path.old) (mesh_state out.old) (held path.new) (mesh_state out.new) }
    {
        let n = path.as_slice().len();
        let base = out.next_vertex();
        out.add_rows(path.as_slice(), &self.hard_rows(), brush);
        self.set_in(path);
        self.fill().add_inner(path.as_slice(), out);
        let own = Vertices {
            base,
            points: n as u32,
        };
        out.add_triangles(own, self.course.kind(Style::Hard, n));
    }
}

impl<'s, C: ColorRule> Pen<'s, C> {
    /// A box at which the rule answers as at the stroke's, which is worked out only for a rule that reads it.
    fn bounds(&self, points: &[PathPoint]) -> Rect
        ensures { C.colour self.now.stroke.now.color result ≡ C.colour self.now.stroke.now.color (stroke_box self.now.feathering self.now.stroke.now.width points.now) }
    {
        if C::READS_BOX {
            Rect::from_points(points).expand(self.stroke.width / 2.0 + self.feathering)
        } else {
            Rect::nothing()
        }
    }

    /// A stroke over points that lie in its middle.
    pub(super) fn draw_along(&self, path: &mut Path, out: &mut Mesh)
        requires { StrokeFits (strokes.style_of self.now.feathering self.now.stroke.now.width) self.now.course (held path.old).used (mesh_state out.old) }
        ensures { Drawn (strokes.stroke_along (strokes.meaning C.colour C.plain self.now) (held path.old).used) (held path.old) (mesh_state out.old) (held path.new) (mesh_state out.new) }
    {
        let outline = self.outline();
        let brush = Colored {
            rule: &self.stroke.color,
            bounds: self.bounds(path.as_slice()),
        };
        match outline.style() {
            Style::Hard => outline.draw_hard(path, &brush, out),
            Style::Thin => outline.draw_thin(path, &brush, out),
            Style::Thick => outline.draw_thick(path, &brush, out),
        }
    }
}
