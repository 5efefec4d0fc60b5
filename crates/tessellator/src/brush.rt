//! What makes the vertices of a row: a colour rule, or a texture rule.
ghost use Rattle.std.specs.Prelude.{◌≡◌};
ghost use Rattle.emath.specs.declared.plane.Pos2.{Pos2};
ghost use Rattle.ecolor.specs.declared.vertex.Vertex.{Vertex};
ghost use Rattle.tessellator.specs.Rows.{vertex_of};
ghost use Rattle.tessellator.specs.Brushes.{colored, flat_color, plain, textured};
ghost use Rattle.tessellator.specs.declared.row.Paint.{Paint};

use crate::row::{Paint, Row};
use ecolor::color::Color32;
use ecolor::rule::ColorRule;
use ecolor::texture::TextureRule;
use ecolor::vertex::Vertex;
use emath::rect::Rect;
use path::point::PathPoint;

impl Paint {
    /// The colour of a row that has one for all of it.
    fn flat_color(self) -> Color32
        ensures { result ≡ flat_color self }
    {
        match self {
            Paint::Flat(color) => color,
            Paint::Core | Paint::Faded(_) => Color32::TRANSPARENT,
        }
    }
}

pub(crate) trait Brush {
    ghost paints: { Self → Paint → Pos2 → Vertex };

    /// The vertex of a row at a point.
    fn vertex(&self, row: Row, point: PathPoint) -> Vertex
        ensures { result ≡ vertex_of (paints self.now) point row };
}

/// Untextured: the core has the rule's colours for the box, asked at the vertex's own place.
#[derive(Drop)]
pub(crate) struct Colored<'a, C> {
    pub(crate) rule: &'a C,
    pub(crate) bounds: Rect,
}

impl<'a, C: ColorRule> Brush for Colored<'a, C> {
    ghost paints = { λ b. colored (C.ColorRule.colour b.rule.now b.bounds) };

    fn vertex(&self, row: Row, point: PathPoint) -> Vertex {
        let pos = point.place(row.side);
        match row.paint {
            Paint::Flat(color) => Vertex::untextured(pos, color),
            Paint::Core => Vertex::untextured(pos, self.rule.color_at(self.bounds, pos)),
            Paint::Faded(factor) => Vertex::untextured(
                pos,
                self.rule.color_at(self.bounds, pos).faded(factor),
            ),
        }
    }
}

/// Untextured, without a core.
#[derive(Clone, Copy)]
pub(crate) struct Plain;

impl Brush for Plain {
    ghost paints = { λ _. plain };

    fn vertex(&self, row: Row, point: PathPoint) -> Vertex {
        Vertex::untextured(point.place(row.side), row.paint.flat_color())
    }
}

/// Textured by a rule that is asked at the vertex's own place. There is no core.
#[derive(Drop)]
pub(crate) struct Textured<'a, U> {
    pub(crate) rule: &'a U,
}

impl<'a, U: TextureRule> Brush for Textured<'a, U> {
    ghost paints = { λ b. textured (U.TextureRule.lies b.rule.now) };

    fn vertex(&self, row: Row, point: PathPoint) -> Vertex {
        let pos = point.place(row.side);
        Vertex {
            pos,
            uv: self.rule.uv_at(pos),
            color: row.paint.flat_color(),
        }
    }
}
