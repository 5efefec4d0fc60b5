//! Growing a mesh by a vertex, and by a triangle among its vertices.
ghost use Rattle.std.specs.Prelude.{◌≡◌, ◌+◌, ◌<◌, ◌≤◌, [], ◌∷◌, length};
ghost use Rattle.tessellator.specs.State.{InMesh, mesh_state, with_vertices, with_triangles, vertex_room, index_room};
ghost use Rattle.tessellator.specs.Triangles.{named, tri};

use super::Mesh;
use ecolor::vertex::Vertex;

impl<'a> Mesh<'a> {
    pub(crate) fn add_vertex(&mut self, vertex: Vertex)
        requires { 1 ≤ vertex_room (mesh_state self.old) }
        ensures { mesh_state self.new ≡ with_vertices (mesh_state self.old) (vertex ∷ []) }
    {
        self.vertices.push(vertex);
    }

    /// The corners are counted from the vertex `base` on.
    pub(crate) fn push_triangle(&mut self, base: u32, a: u32, b: u32, c: u32)
        requires space { 3 ≤ index_room (mesh_state self.old) }
        requires named { InMesh base (tri a b c) (mesh_state self.old) }
        ensures { mesh_state self.new ≡ with_triangles base (mesh_state self.old) (tri a b c ∷ []) }
    {
        self.indices
            .extend_from_slice(&[base + a, base + b, base + c]);
    }

    /// Two triangles, with one test of the space.
    pub(super) fn push_pair(&mut self, base: u32, first: [u32; 3], second: [u32; 3])
        requires space { 6 ≤ index_room (mesh_state self.old) }
        requires one { InMesh base (named first) (mesh_state self.old) }
        requires other { InMesh base (named second) (mesh_state self.old) }
        ensures { mesh_state self.new ≡ with_triangles base (mesh_state self.old) (named first ∷ named second ∷ []) }
    {
        let [a, b, c] = first;
        let [d, e, f] = second;
        self.indices.extend_from_slice(&[
            base + a,
            base + b,
            base + c,
            base + d,
            base + e,
            base + f,
        ]);
    }
}
