//! Making a mesh, and reading it through shared slices.
ghost use Rattle.std.specs.Prelude.{◌≡◌};
ghost use Rattle.tessellator.specs.State.{mesh_state, empty_mesh};

use super::Mesh;
use ecolor::vertex::{TextureId, Vertex};
use slice_vec::SliceVec;

impl<'a> Mesh<'a> {
    /// An empty mesh in lent memory.
    pub fn with_texture(
        texture_id: TextureId,
        vertices: &'a mut [Vertex],
        indices: &'a mut [u32],
    ) -> Mesh<'a>
        ensures { mesh_state result ≡ empty_mesh vertices.old indices.old texture_id }
    {
        Mesh {
            vertices: SliceVec::new(vertices),
            indices: SliceVec::new(indices),
            texture_id,
        }
    }

    /// The vertices in use.
    pub fn vertices(&self) -> &[Vertex]
        ensures { result.now ≡ (mesh_state self.now).vertices }
    {
        self.vertices.as_slice()
    }

    /// The indices in use.
    pub fn indices(&self) -> &[u32]
        ensures { result.now ≡ (mesh_state self.now).indices }
    {
        self.indices.as_slice()
    }

    pub fn texture_id(&self) -> TextureId
        ensures { result ≡ (mesh_state self.now).texture }
    {
        self.texture_id
    }
}
