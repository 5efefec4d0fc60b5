//! Cutting a mesh, with the promise about it.
ghost use Rattle.std.specs.Prelude.{◌≡◌};
ghost use Rattle.tessellator.specs.State.{finished_state};
ghost use Rattle.cutting.specs.Faults.{told};
ghost use Rattle.cutting.specs.Outcome.{left, cutting};
ghost use Rattle.promise.specs.Promise.{Stands};

use cutting::cut;
use cutting::fault::CutFault;
use cutting::part::Part;
use tessellator::finished::Finished;

/// Cuts a mesh into parts for 16-bit indices, as `cutting` does.
/// Whatever run of calls has made the mesh: its triangles are those of its figures, in the order drawn. No two figures share an
/// edge. An edge on the rim of a figure is in one triangle and any other in two, but for closed strokes of just two points.
/// Core vertices have their rule's colours, and vertices of textured fills their rule's texture places. No cutting in order
/// has fewer runs than there are parts.
pub fn split_to_u16(
    mesh: &Finished,
    indices: &mut [u16],
    parts: &mut [Part],
) -> Result<usize, CutFault>
    ensures outcome { left result indices.new parts.new ≡ cutting (finished_state mesh.now) indices.old parts.old }
    ensures never { Stands (finished_state mesh.now) (told result) }
{
    cut::split_to_u16(mesh, indices, parts)
}
