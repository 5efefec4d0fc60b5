//! Vertices and textures.
ghost use Rattle.std.specs.Prelude.{◌≡◌};
ghost use Rattle.ecolor.specs.Vertices as vertices;

use crate::color::Color32;
use emath::plane::Pos2;

/// Which texture a mesh is drawn with.
#[derive(Clone, Copy, PartialEq, Eq)]
pub enum TextureId {
    Managed(u64),
    User(u64),
}

/// A place, a place in the texture and a colour.
#[derive(Clone, Copy, Default, PartialEq)]
pub struct Vertex {
    pub pos: Pos2,
    pub uv: Pos2,
    pub color: Color32,
}

impl TextureId {
    /// The texture of a mesh without one of its own.
    pub const DEFAULT: TextureId = TextureId::Managed(0);

    // Calls beside `==`, since contracts name what they answer.
    pub fn is_default(self) -> bool
        ensures { result ≡ vertices.is_default self }
    {
        self == TextureId::DEFAULT
    }

    pub fn is_same(self, other: TextureId) -> bool
        ensures { result ≡ vertices.same_texture self other }
    {
        self == other
    }
}

impl Default for TextureId {
    ghost is_default = { λ id. id ≡ vertices.default_texture };

    fn default() -> TextureId {
        TextureId::DEFAULT
    }
}

impl Vertex {
    /// A vertex without a texture has the texture place (0, 0).
    pub fn untextured(pos: Pos2, color: Color32) -> Vertex
        ensures { result ≡ vertices.untextured pos color }
    {
        Vertex {
            pos,
            uv: Pos2::default(),
            color,
        }
    }
}
