//! Stroking a path, and filling and stroking it.
ghost use Rattle.std.specs.Prelude.{◌≡◌, length};
ghost use Rattle.path.specs.Held.{held};
ghost use Rattle.tessellator.specs.Faults.{told};
ghost use Rattle.tessellator.specs.Outcome.{Drawn, Grows, KindFits, Sized, after};
ghost use Rattle.tessellator.specs.State.{mesh_state};
ghost use Rattle.tessellator.specs.Strokes as strokes;
ghost use Rattle.tessellator.specs.declared.stroke.Course.TheVariants.{Around};

use super::pen::Pen;
use super::{Course, PathStroke, PathType};
use crate::brush::Plain;
use crate::fault::{Appended, FigureFault};
use crate::mesh::Mesh;
use ecolor::color::Color32;
use ecolor::rule::ColorRule;
use emath::limits::{all_places, is_distance};
use path::path::Path;

impl<'s, C: ColorRule> Pen<'s, C> {
    /// Moves the points, and appends what is drawn.
    fn draw_all(&self, path: &mut Path, out: &mut Mesh)
        requires { KindFits (strokes.stroke_kind (strokes.meaning C.colour C.plain self.now) (length (held path.old).used)) (length (held path.old).used) (mesh_state out.old) }
        ensures { Drawn (strokes.stroke_figure (strokes.meaning C.colour C.plain self.now) (held path.old).used) (held path.old) (mesh_state out.old) (held path.new) (mesh_state out.new) }
    {
        if path.as_slice().len() < 2 {
            return;
        }
        if self.stroke.width == 0.0 {
            self.outline().fill().draw(path, &Plain, out);
            return;
        }
        self.face(path);
        if self.is_clear() {
            self.shrink(path);
            self.outline().fill().draw(path, &Plain, out);
            return;
        }
        self.centre(path);
        self.draw_along(path, out);
    }

    /// What drawing would append, with space enough.
    pub(super) fn size(&self, path: &Path) -> Result<Appended, FigureFault>
        ensures { told result ≡ strokes.stroke_sizing (strokes.meaning C.colour C.plain self.now) (held path.now) }
    {
        let points = path.as_slice();
        if !is_distance(self.stroke.width) || !is_distance(self.feathering) || !all_places(points) {
            return Err(FigureFault::OutOfLimits);
        }
        let n = points.len();
        Ok(self.kind(n).size(n))
    }

    /// Draws whole or not at all.
    pub(super) fn draw(&self, path: &mut Path, out: &mut Mesh) -> Result<Appended, FigureFault>
        ensures outcome { after result path.new out.new ≡ strokes.stroke_outcome (strokes.meaning C.colour C.plain self.now) (held path.old) (mesh_state out.old) }
        ensures grows { Grows (told result) (held path.old) (mesh_state out.old) (held path.new) (mesh_state out.new) }
        ensures sized { Sized (told result) (strokes.stroke_sizing (strokes.meaning C.colour C.plain self.now) (held path.old)) (mesh_state out.old) }
    {
        let size = self.size(path)?;
        out.reserve(size)?;
        self.draw_all(path, out);
        Ok(size)
    }
}

/// What stroking the path would append, with space enough.
pub fn size_of_stroke<C: ColorRule>(
    path: &Path,
    feathering: f32,
    path_type: PathType,
    stroke: &PathStroke<C>,
) -> Result<Appended, FigureFault>
    ensures { told result ≡ strokes.stroke_sizing (strokes.pen_of C.colour C.plain feathering (strokes.course_of path_type) stroke.now) (held path.now) }
{
    Pen::new(feathering, path_type.course(), stroke).size(path)
}

/// Strokes the path, whole or not at all. The path keeps its points where the stroke moved them.
pub fn stroke<C: ColorRule>(
    path: &mut Path,
    feathering: f32,
    path_type: PathType,
    stroke: &PathStroke<C>,
    out: &mut Mesh,
) -> Result<Appended, FigureFault>
    ensures outcome { after result path.new out.new ≡ strokes.stroke_outcome (strokes.pen_of C.colour C.plain feathering (strokes.course_of path_type) stroke.now) (held path.old) (mesh_state out.old) }
    ensures grows { Grows (told result) (held path.old) (mesh_state out.old) (held path.new) (mesh_state out.new) }
    ensures sized { Sized (told result) (strokes.stroke_sizing (strokes.pen_of C.colour C.plain feathering (strokes.course_of path_type) stroke.now) (held path.old)) (mesh_state out.old) }
{
    Pen::new(feathering, path_type.course(), stroke).draw(path, out)
}

/// What filling and stroking the path would append, with space enough.
pub fn size_of_fill_and_stroke<C: ColorRule>(
    path: &Path,
    feathering: f32,
    fill: Color32,
    stroke: &PathStroke<C>,
) -> Result<Appended, FigureFault>
    ensures { told result ≡ strokes.stroke_sizing (strokes.pen_of C.colour C.plain feathering (Around fill) stroke.now) (held path.now) }
{
    Pen::new(feathering, Course::Around(fill), stroke).size(path)
}

/// Fills and strokes the path, taken to be closed, whole or not at all. The path keeps its points where the stroke moved them.
pub fn fill_and_stroke<C: ColorRule>(
    path: &mut Path,
    feathering: f32,
    fill: Color32,
    stroke: &PathStroke<C>,
    out: &mut Mesh,
) -> Result<Appended, FigureFault>
    ensures outcome { after result path.new out.new ≡ strokes.stroke_outcome (strokes.pen_of C.colour C.plain feathering (Around fill) stroke.now) (held path.old) (mesh_state out.old) }
    ensures grows { Grows (told result) (held path.old) (mesh_state out.old) (held path.new) (mesh_state out.new) }
    ensures sized { Sized (told result) (strokes.stroke_sizing (strokes.pen_of C.colour C.plain feathering (Around fill) stroke.now) (held path.old)) (mesh_state out.old) }
{
    Pen::new(feathering, Course::Around(fill), stroke).draw(path, out)
}
