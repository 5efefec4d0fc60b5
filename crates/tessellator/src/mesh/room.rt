//! Whether a figure has space in a mesh.
ghost use Rattle.std.specs.Prelude.{◌≡◌, length};
ghost use Rattle.tessellator.specs.Outcome.{reserved, reserved_under, space_reserved};
ghost use Rattle.tessellator.specs.State.{mesh_state, vertex_room, index_room, with_texture};

use super::Mesh;
use crate::fault::{Appended, FigureFault};
use ecolor::vertex::TextureId;

impl<'a> Mesh<'a> {
    fn vertex_room(&self) -> usize
        ensures { result ≡ vertex_room (mesh_state self.now) }
    {
        self.vertices.space()
    }

    pub(super) fn index_room(&self) -> usize
        ensures { result ≡ index_room (mesh_state self.now) }
    {
        self.indices.space()
    }

    /// The number that the next vertex gets.
    pub(crate) fn next_vertex(&self) -> u32
        ensures { result ≡ length (mesh_state self.now).vertices }
    {
        self.vertices.len() as u32
    }

    /// Refuses what there is no space for.
    fn reserve_space(&self, size: Appended) -> Result<(), FigureFault>
        ensures { result ≡ space_reserved size (mesh_state self.now) }
    {
        if size.vertices > self.vertex_room() {
            return Err(FigureFault::NoVertexSpace);
        }
        if size.indices > self.index_room() {
            return Err(FigureFault::NoIndexSpace);
        }
        Ok(())
    }

    /// Refuses what cannot be appended without a texture.
    pub(crate) fn reserve(&self, size: Appended) -> Result<(), FigureFault>
        ensures { result ≡ reserved size (mesh_state self.now) }
    {
        if size.vertices != 0 && !self.texture_id.is_default() {
            return Err(FigureFault::OtherTexture);
        }
        self.reserve_space(size)
    }

    /// Refuses what cannot be appended with a texture.
    pub(crate) fn reserve_under(
        &self,
        texture_id: TextureId,
        size: Appended,
    ) -> Result<(), FigureFault>
        ensures { result ≡ reserved_under texture_id size (mesh_state self.now) }
    {
        if !self.vertices.is_empty() && !self.texture_id.is_same(texture_id) {
            return Err(FigureFault::OtherTexture);
        }
        self.reserve_space(size)
    }

    pub(crate) fn set_texture(&mut self, texture_id: TextureId)
        ensures { mesh_state self.new ≡ with_texture (mesh_state self.old) texture_id }
    {
        self.texture_id = texture_id;
    }
}
