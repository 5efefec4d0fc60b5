//! Drawing a figure over points that lie where its rows are counted from.
ghost use Rattle.std.specs.Prelude.{◌≡◌, ◌*◌, ◌≤◌, length};
ghost use Rattle.path.specs.Held.{held};
ghost use Rattle.tessellator.specs.Kinds.{fewest, vertex_count};
ghost use Rattle.tessellator.specs.Outcome.{KindFits, mesh_after, shaped};
ghost use Rattle.tessellator.specs.Rows.{row_vertices};
ghost use Rattle.tessellator.specs.State.{mesh_state};

use crate::brush::Brush;
use crate::kind::Kind;
use crate::mesh::Mesh;
use crate::mesh::vertices::Vertices;
use crate::row::Row;
use path::path::Path;

/// The vertices of the rows at each point, and the triangles of the kind among them.
pub(crate) fn draw_rows<B: Brush>(path: &Path, rows: &[Row], brush: &B, kind: Kind, out: &mut Mesh)
    requires enough { fewest kind ≤ length (held path.now).used }
    requires all_rows { length (held path.now).used * length rows.now ≡ vertex_count kind (length (held path.now).used) }
    requires fits { KindFits kind (length (held path.now).used) (mesh_state out.old) }
    ensures { mesh_state out.new ≡ mesh_after (shaped kind (held path.now).used (row_vertices (B.paints brush.now) rows.now (held path.now).used)) (mesh_state out.old) }
{
    let points = path.as_slice();
    let base = out.next_vertex();
    out.add_rows(points, rows, brush);
    let own = Vertices {
        base,
        points: points.len() as u32,
    };
    out.add_triangles(own, kind);
}
