//! How many vertices and indices a figure has.
ghost use Rattle.std.specs.Prelude.{◌≡◌, ◌≤◌};
ghost use Rattle.tessellator.specs.Kinds.{fewest, index_count, vertex_count};

use super::Kind;
use crate::fault::Appended;
use crate::stroke::Style;

impl Kind {
    /// What a figure of so many points appends.
    pub(crate) fn size(self, points: usize) -> Appended
        requires enough { fewest self ≤ points }
        requires few { points ≤ 1048576 }
        ensures { result ≡ record { vertices = vertex_count self points; indices = index_count self points } }
    {
        let (vertices, indices) = match self {
            Kind::Nothing => (0, 0),
            Kind::HardFill => (points, 3 * (points - 2)),
            Kind::FeatheredFill => (2 * points, 3 * (points - 2) + 6 * points),
            Kind::Line(Style::Hard) => (2 * points, 6 * (points - 1)),
            Kind::Line(Style::Thin) => (3 * points, 12 * (points - 1)),
            Kind::Line(Style::Thick) => (4 * points, 18 * (points - 1) + 12),
            Kind::Loop(Style::Hard) => (2 * points, 6 * points),
            Kind::Loop(Style::Thin) => (3 * points, 12 * points),
            Kind::Loop(Style::Thick) => (4 * points, 18 * points),
            Kind::Filled(Style::Hard) => (2 * points + points, 6 * points + 3 * (points - 2)),
            Kind::Filled(Style::Thin) => (3 * points, 12 * points + 3 * (points - 2)),
            Kind::Filled(Style::Thick) => (4 * points, 18 * points + 3 * (points - 2)),
        };
        Appended { vertices, indices }
    }
}
