//! What a stroke is drawn with.
ghost use Rattle.std.specs.Prelude.{◌≡◌};
ghost use Rattle.tessellator.specs.Strokes as strokes;

use super::outline::Outline;
use super::{Course, PathStroke, PathType};
use crate::kind::Kind;
use ecolor::color::Color32;
use ecolor::rule::ColorRule;

/// A stroke, what it runs along, and the width of its soft edges.
#[derive(Drop)]
pub(super) struct Pen<'s, C> {
    pub(super) feathering: f32,
    pub(super) course: Course,
    pub(super) stroke: &'s PathStroke<C>,
}

impl PathType {
    /// A closed stroke without a fill.
    pub(super) fn course(self) -> Course
        ensures { result ≡ strokes.course_of self }
    {
        match self {
            PathType::Open => Course::Unjoined,
            PathType::Closed => Course::Around(Color32::TRANSPARENT),
        }
    }
}

impl<'s, C: ColorRule> Pen<'s, C> {
    pub(super) fn new(feathering: f32, course: Course, stroke: &'s PathStroke<C>) -> Pen<'s, C>
        ensures { strokes.meaning C.colour C.plain result ≡ strokes.pen_of C.colour C.plain feathering course stroke.now }
    {
        Pen {
            feathering,
            course,
            stroke,
        }
    }

    pub(super) fn outline(&self) -> Outline
        ensures { result ≡ record { feathering = self.now.feathering; width = self.now.stroke.now.width; course = self.now.course } }
    {
        Outline {
            feathering: self.feathering,
            width: self.stroke.width,
            course: self.course,
        }
    }

    /// Whether the stroke is transparent everywhere.
    pub(super) fn is_clear(&self) -> bool
        ensures { result ≡ strokes.is_clear (C.plain self.now.stroke.now.color) }
    {
        match self.stroke.color.plain_color() {
            Some(color) => color.is_transparent(),
            None => false,
        }
    }

    /// The kind of figure that a path of so many points gives. Without a width or a colour there is only the fill.
    pub(super) fn kind(&self, points: usize) -> Kind
        ensures { result ≡ strokes.stroke_kind (strokes.meaning C.colour C.plain self.now) points }
    {
        if points < 2 {
            Kind::Nothing
        } else if self.stroke.width == 0.0 || self.is_clear() {
            self.outline().fill().kind(points)
        } else {
            self.course.kind(self.outline().style(), points)
        }
    }
}
