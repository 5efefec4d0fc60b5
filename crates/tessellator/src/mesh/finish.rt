//! Finishing a mesh.
ghost use Rattle.std.specs.Prelude.{◌≡◌};
ghost use Rattle.tessellator.specs.State.{mesh_state, finished_state};

use super::Mesh;
use crate::finished::Finished;

impl<'a> Mesh<'a> {
    /// Refuses nothing, and keeps all that the mesh has.
    pub fn finish(self) -> Finished<'a>
        ensures { finished_state result ≡ mesh_state self.entry }
    {
        Finished { mesh: self }
    }
}
