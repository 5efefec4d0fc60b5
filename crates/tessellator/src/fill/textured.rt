//! Filling a path with a texture.
ghost use Rattle.std.specs.Prelude.{◌≡◌};
ghost use Rattle.path.specs.Held.{held};
ghost use Rattle.tessellator.specs.Faults.{told};
ghost use Rattle.tessellator.specs.Fills as fills;
ghost use Rattle.tessellator.specs.Outcome.{after, sizing, textured_outcome};
ghost use Rattle.tessellator.specs.State.{mesh_state};

use super::{Filling, size_of_fill};
use crate::brush::Textured;
use crate::fault::{Appended, FigureFault};
use crate::mesh::Mesh;
use ecolor::color::Color32;
use ecolor::texture::TextureRule;
use ecolor::vertex::TextureId;
use path::path::Path;

/// What a textured fill would append, with space enough. The texture and its rule make no difference.
pub fn size_of_fill_with_uv<U: TextureRule>(
    path: &Path,
    feathering: f32,
    color: Color32,
    _texture_id: TextureId,
    uv_from_pos: &U,
) -> Result<Appended, FigureFault>
    ensures { told result ≡ sizing (fills.fill_allowed feathering (held path.now).used) (fills.textured_figure feathering color (U.lies uv_from_pos.now) (held path.now).used) }
{
    size_of_fill(path, feathering, color)
}

/// Fills the path with a texture, whole or not at all. An empty mesh takes the texture.
pub fn fill_with_uv<U: TextureRule>(
    path: &mut Path,
    feathering: f32,
    color: Color32,
    texture_id: TextureId,
    uv_from_pos: &U,
    out: &mut Mesh,
) -> Result<Appended, FigureFault>
    ensures { after result path.new out.new ≡ textured_outcome (fills.fill_allowed feathering (held path.old).used) color texture_id (fills.textured_figure feathering color (U.lies uv_from_pos.now) (held path.old).used) (held path.old) (mesh_state out.old) }
{
    let fill = Filling { feathering, color };
    let size = fill.size(path)?;
    if color.is_transparent() {
        return Ok(size);
    }
    if path.as_slice().len() < 3 {
        return Err(FigureFault::TooFewPoints);
    }
    out.reserve_under(texture_id, size)?;
    out.set_texture(texture_id);
    fill.draw(path, &Textured { rule: uv_from_pos }, out);
    Ok(size)
}
