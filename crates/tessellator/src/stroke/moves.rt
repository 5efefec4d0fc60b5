//! How a stroke moves the points of its path.
ghost use Rattle.std.specs.Prelude.{◌≡◌};
ghost use Rattle.path.specs.Held.{held, rewritten};
ghost use Rattle.tessellator.specs.Strokes as strokes;

use super::outline::Outline;
use super::pen::Pen;
use super::{Course, StrokeKind};
use ecolor::color::Color32;
use path::path::Path;
use path::point::Side;

impl Course {
    /// The colour within.
    pub(crate) fn fill(self) -> Color32
        ensures { result ≡ strokes.fill_of self }
    {
        match self {
            Course::Unjoined => Color32::TRANSPARENT,
            Course::Around(fill) => fill,
        }
    }

    fn is_loop(self) -> bool
        ensures { result ≡ strokes.is_loop self }
    {
        matches!(self, Course::Around(_))
    }
}

impl StrokeKind {
    fn is_middle(self) -> bool
        ensures { result ≡ strokes.is_middle self }
    {
        self == StrokeKind::Middle
    }
}

impl<'s, C> Pen<'s, C> {
    /// Turns a path that runs counterclockwise, where the fill or the kind asks for an inside.
    pub(super) fn face(&self, path: &mut Path)
        ensures { held path.new ≡ rewritten (held path.old) (strokes.faced self.now.course self.now.stroke.now.kind (held path.old).used) }
    {
        if !self.course.fill().is_transparent()
            || self.course.is_loop() && !self.stroke.kind.is_middle()
        {
            path.turn_clockwise();
        }
    }

    /// Moves the points to the middle of the stroke.
    pub(super) fn centre(&self, path: &mut Path)
        ensures { held path.new ≡ rewritten (held path.old) (strokes.centred self.now.stroke.now.kind self.now.stroke.now.width (held path.old).used) }
    {
        match self.stroke.kind {
            StrokeKind::Inside => path.move_points(Side::Inward(0.5 * self.stroke.width)),
            StrokeKind::Middle => {}
            StrokeKind::Outside => path.move_points(Side::Outward(0.5 * self.stroke.width)),
        }
    }

    /// Moves the points to the inner side of the stroke.
    pub(super) fn shrink(&self, path: &mut Path)
        ensures { held path.new ≡ rewritten (held path.old) (strokes.shrunk self.now.stroke.now.kind self.now.stroke.now.width (held path.old).used) }
    {
        match self.stroke.kind {
            StrokeKind::Inside => path.move_points(Side::Inward(self.stroke.width)),
            StrokeKind::Middle => path.move_points(Side::Inward(0.5 * self.stroke.width)),
            StrokeKind::Outside => {}
        }
    }
}

impl Outline {
    /// Moves the points of a filled thin stroke out, so that the filled area stays as it is.
    pub(crate) fn swell(self, path: &mut Path)
        ensures { held path.new ≡ rewritten (held path.old) (strokes.swollen self.feathering self.width (strokes.fill_of self.course) (held path.old).used) }
    {
        if !self.course.fill().is_transparent() && self.width < self.feathering {
            path.move_points(Side::Outward(0.5 * (self.feathering - self.width)));
        }
    }

    /// Moves the points of a visible fill to the inner side of its hard stroke.
    pub(crate) fn set_in(self, path: &mut Path)
        ensures { held path.new ≡ rewritten (held path.old) (strokes.inset self.width (strokes.fill_of self.course) (held path.old).used) }
    {
        if !self.course.fill().is_transparent() {
            path.move_points(Side::Inward(0.5 * self.width));
        }
    }
}
