//! Reading a finished mesh.
ghost use Rattle.std.specs.Prelude.{◌≡◌};
ghost use Rattle.tessellator.specs.State.{finished_state};

use super::Finished;
use ecolor::vertex::{TextureId, Vertex};

impl<'a> Finished<'a> {
    /// The vertices of the mesh.
    pub fn vertices(&self) -> &[Vertex]
        ensures { result.now ≡ (finished_state self.now).vertices }
    {
        self.mesh.vertices()
    }

    /// The indices of the mesh.
    pub fn indices(&self) -> &[u32]
        ensures { result.now ≡ (finished_state self.now).indices }
    {
        self.mesh.indices()
    }

    pub fn texture_id(&self) -> TextureId
        ensures { result ≡ (finished_state self.now).texture }
    {
        self.mesh.texture_id()
    }
}
