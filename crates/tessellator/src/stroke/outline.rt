//! How a stroke runs, and the rows of vertices beside it.
ghost use Rattle.std.specs.Prelude.{◌≡◌};
ghost use Rattle.tessellator.specs.Strokes as strokes;

use super::{Course, Style};
use crate::row::{Paint, Row};
use ecolor::color::Color32;
use emath::plane::fast_midpoint;
use path::point::Side;

/// A stroke but for its place beside the path and its colours.
#[derive(Clone, Copy)]
pub(crate) struct Outline {
    pub(crate) feathering: f32,
    pub(crate) width: f32,
    pub(crate) course: Course,
}

/// Two core rows between feathered sides.
fn core_between(first: Side, inner: f32, last: Side, fill: Color32) -> [Row; 4]
    ensures { result ≡ strokes.core_between first inner last fill }
{
    [
        Row {
            side: first,
            paint: Paint::Flat(Color32::TRANSPARENT),
        },
        Row {
            side: Side::Outward(inner),
            paint: Paint::Core,
        },
        Row {
            side: Side::Inward(inner),
            paint: Paint::Core,
        },
        Row {
            side: last,
            paint: Paint::Flat(fill),
        },
    ]
}

impl Outline {
    /// Without feathering hard, else thin up to 0.9 of the feathering.
    pub(crate) fn style(self) -> Style
        ensures { result ≡ strokes.style_of self.feathering self.width }
    {
        if 0.0 < self.feathering {
            if self.width <= 0.9 * self.feathering {
                Style::Thin
            } else {
                Style::Thick
            }
        } else {
            Style::Hard
        }
    }

    fn inner_radius(self) -> f32
        ensures { result ≡ strokes.inner_radius self.feathering self.width }
    {
        0.5 * (self.width - self.feathering)
    }

    fn outer_radius(self) -> f32
        ensures { result ≡ strokes.outer_radius self.feathering self.width }
    {
        fast_midpoint(self.width, self.feathering)
    }

    pub(crate) fn hard_rows(self) -> [Row; 2]
        ensures { result ≡ strokes.hard_rows self.width }
    {
        let radius = self.width / 2.0;
        [
            Row {
                side: Side::Outward(radius),
                paint: Paint::Core,
            },
            Row {
                side: Side::Inward(radius),
                paint: Paint::Core,
            },
        ]
    }

    pub(crate) fn thin_rows(self) -> [Row; 3]
        ensures { result ≡ strokes.thin_rows self.feathering self.width (strokes.fill_of self.course) }
    {
        [
            Row {
                side: Side::Outward(self.feathering),
                paint: Paint::Flat(Color32::TRANSPARENT),
            },
            Row {
                side: Side::Along,
                paint: Paint::Faded(self.width / self.feathering),
            },
            Row {
                side: Side::Inward(self.feathering),
                paint: Paint::Flat(self.course.fill()),
            },
        ]
    }

    pub(crate) fn thick_rows(self, fill: Color32) -> [Row; 4]
        ensures { result ≡ strokes.thick_rows self.feathering self.width fill }
    {
        let outer = self.outer_radius();
        core_between(
            Side::Outward(outer),
            self.inner_radius(),
            Side::Inward(outer),
            fill,
        )
    }

    /// The rows at an end of a thick line, whose outer ones lie `past` further out.
    pub(crate) fn end_rows(self, past: f32) -> [Row; 4]
        ensures { result ≡ strokes.end_rows self.feathering self.width past }
    {
        let outer = self.outer_radius();
        core_between(
            Side::OutwardPast(outer, past),
            self.inner_radius(),
            Side::InwardPast(outer, past),
            Color32::TRANSPARENT,
        )
    }
}
