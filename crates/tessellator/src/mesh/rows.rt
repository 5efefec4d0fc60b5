//! The rows of vertices beside a path.
ghost use Rattle.std.specs.Prelude.{◌≡◌, ◌*◌, ◌≤◌, length};
ghost use Rattle.tessellator.specs.Rows.{vertex_of, vertices_at, row_vertices};
ghost use Rattle.tessellator.specs.State.{mesh_state, with_vertices, vertex_room};

use super::Mesh;
use crate::brush::Brush;
use crate::row::Row;
use ecolor::vertex::Vertex;
use path::point::PathPoint;
use slice_vec::map::Map;

/// A point where a brush makes the vertices of rows.
#[derive(Drop)]
struct At<'a, B> {
    point: PathPoint,
    brush: &'a B,
}

impl<'a, B: Brush> Map<Row, Vertex> for At<'a, B> {
    ghost image = { λ a. vertex_of (B.Brush.paints a.brush.now) a.point };

    fn image(&self, source: Row) -> Vertex {
        self.brush.vertex(source, self.point)
    }
}

impl<'a> Mesh<'a> {
    fn add_vertices_at<B: Brush>(&mut self, point: PathPoint, rows: &[Row], brush: &B)
        requires { length rows.now ≤ vertex_room (mesh_state self.old) }
        ensures { mesh_state self.new ≡ with_vertices (mesh_state self.old) (vertices_at (B.paints brush.now) rows.now point) }
    {
        self.vertices.extend_by(rows, &At { point, brush });
    }

    /// The vertices of all rows at each point.
    pub(crate) fn add_rows<B: Brush>(&mut self, points: &[PathPoint], rows: &[Row], brush: &B)
        requires { length points.now * length rows.now ≤ vertex_room (mesh_state self.old) }
        ensures { mesh_state self.new ≡ with_vertices (mesh_state self.old) (row_vertices (B.paints brush.now) rows.now points.now) }
    {
        for point in points {
            self.add_vertices_at(*point, rows, brush);
        }
    }
}
