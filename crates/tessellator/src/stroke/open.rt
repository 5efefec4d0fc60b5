//! Stroking a path as an open line.
ghost use Rattle.std.specs.Prelude.{◌≡◌};
ghost use Rattle.path.specs.Held.{held};
ghost use Rattle.tessellator.specs.Strokes as strokes;
ghost use Rattle.tessellator.specs.Faults.{told};
ghost use Rattle.tessellator.specs.Outcome.{Grows, Sized, after};
ghost use Rattle.tessellator.specs.State.{mesh_state};
ghost use Rattle.tessellator.specs.declared.stroke.Course.TheVariants.{Unjoined};

use super::pen::Pen;
use super::{Course, PathStroke};
use crate::fault::{Appended, FigureFault};
use crate::mesh::Mesh;
use ecolor::rule::ColorRule;
use path::path::Path;

/// What stroking the path as an open line would append, with space enough.
pub fn size_of_stroke_open<C: ColorRule>(
    path: &Path,
    feathering: f32,
    stroke: &PathStroke<C>,
) -> Result<Appended, FigureFault>
    ensures { told result ≡ strokes.stroke_sizing (strokes.pen_of C.colour C.plain feathering Unjoined stroke.now) (held path.now) }
{
    Pen::new(feathering, Course::Unjoined, stroke).size(path)
}

/// Strokes the path as an open line, whole or not at all. The path keeps its points where the stroke moved them.
pub fn stroke_open<C: ColorRule>(
    path: &mut Path,
    feathering: f32,
    stroke: &PathStroke<C>,
    out: &mut Mesh,
) -> Result<Appended, FigureFault>
    ensures outcome { after result path.new out.new ≡ strokes.stroke_outcome (strokes.pen_of C.colour C.plain feathering Unjoined stroke.now) (held path.old) (mesh_state out.old) }
    ensures grows { Grows (told result) (held path.old) (mesh_state out.old) (held path.new) (mesh_state out.new) }
    ensures sized { Sized (told result) (strokes.stroke_sizing (strokes.pen_of C.colour C.plain feathering Unjoined stroke.now) (held path.old)) (mesh_state out.old) }
{
    Pen::new(feathering, Course::Unjoined, stroke).draw(path, out)
}
