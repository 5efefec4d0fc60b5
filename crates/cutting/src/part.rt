//! A part of a finished mesh.
ghost use Rattle.std.specs.Prelude.{◌≡◌};
ghost use Rattle.std.specs.Option.{option_map};
ghost use Rattle.tessellator.specs.State.{finished_state};
ghost use Rattle.cutting.specs.Parts.{vertices_of};

use ecolor::vertex::{TextureId, Vertex};
use tessellator::finished::Finished;

/// A row of vertices and a row of indices of the mesh, each by its first and its count, since the memory is another's.
/// The 16-bit indices count from the part's first vertex.
#[derive(Clone, Copy, Default, PartialEq)]
pub struct Part {
    pub first_vertex: usize,
    pub vertex_count: usize,
    pub first_index: usize,
    pub index_count: usize,
    pub texture_id: TextureId,
}

impl Part {
    /// The part's vertices, where the mesh has them all.
    pub fn vertices<'m>(&self, mesh: &'m Finished<'_>) -> Option<&'m [Vertex]>
        ensures { option_map (λ v. v.now) result ≡ vertices_of self.now (finished_state mesh.now).vertices }
    {
        let end = self.first_vertex.checked_add(self.vertex_count)?;
        mesh.vertices().get(self.first_vertex..end)
    }
}
