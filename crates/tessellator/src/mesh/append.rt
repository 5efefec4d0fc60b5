//! Appending another mesh, a single vertex or a single triangle.
ghost use Rattle.std.specs.Prelude.{◌≡◌, ℕ, ◌+◌, ◌<◌, ◌≤◌, length, slice_index};
ghost use Rattle.tessellator.specs.Outcome.{joining, joined_after, one_vertex, one_triangle};
ghost use Rattle.tessellator.specs.State.{mesh_state, with_vertices, with_triangles, vertex_room, index_room};
ghost use Rattle.tessellator.specs.Triangles.{triples};

use super::Mesh;
use crate::fault::{Appended, FigureFault};
use ecolor::color::Color32;
use ecolor::vertex::Vertex;
use emath::limits::is_place;
use emath::plane::Pos2;

impl<'a> Mesh<'a> {
    /// Appends all that another mesh has, or nothing. An empty mesh takes the other's texture.
    pub fn append_ref(&mut self, other: &Mesh) -> Result<(), FigureFault>
        ensures { joined_after result self.new ≡ joining (mesh_state other.now) (mesh_state self.old) }
    {
        let size = Appended {
            vertices: other.vertices.len(),
            indices: other.indices.len(),
        };
        self.reserve_under(other.texture_id, size)?;
        let base = self.next_vertex();
        self.copy_vertices(other.vertices());
        self.copy_triangles(base, other.indices());
        self.set_texture(other.texture_id);
        Ok(())
    }

    /// Appends a vertex without a texture.
    pub fn colored_vertex(&mut self, pos: Pos2, color: Color32) -> Result<(), FigureFault>
        ensures { joined_after result self.new ≡ one_vertex pos color (mesh_state self.old) }
    {
        if !is_place(pos) {
            return Err(FigureFault::OutOfLimits);
        }
        let size = Appended {
            vertices: 1,
            indices: 0,
        };
        self.reserve(size)?;
        self.add_vertex(Vertex::untextured(pos, color));
        Ok(())
    }

    /// Appends a triangle among the vertices.
    pub fn add_triangle(&mut self, a: u32, b: u32, c: u32) -> Result<(), FigureFault>
        ensures { joined_after result self.new ≡ one_triangle a b c (mesh_state self.old) }
    {
        let n = self.next_vertex();
        if a >= n || b >= n || c >= n {
            return Err(FigureFault::NoVertex);
        }
        if self.index_room() < 3 {
            return Err(FigureFault::NoIndexSpace);
        }
        self.push_triangle(0, a, b, c);
        Ok(())
    }

    fn copy_vertices(&mut self, vertices: &[Vertex])
        requires { length vertices.now ≤ vertex_room (mesh_state self.old) }
        ensures { mesh_state self.new ≡ with_vertices (mesh_state self.old) vertices.now }
    {
        self.vertices.extend_from_slice(vertices);
    }

    /// The triangles that these indices name, counted from the vertex `base` on.
    fn copy_triangles(&mut self, base: u32, indices: &[u32])
        requires space { length indices.now ≤ index_room (mesh_state self.old) }
        requires named { (k : ℕ) → k < length indices.now → base + slice_index indices.now k < length (mesh_state self.old).vertices }
        ensures { mesh_state self.new ≡ with_triangles base (mesh_state self.old) (triples indices.now) }
    {
        let (triangles, _) = indices.as_chunks::<3>();
        for triangle in triangles {
            let [a, b, c] = *triangle;
            self.push_triangle(base, a, b, c);
        }
    }
}
