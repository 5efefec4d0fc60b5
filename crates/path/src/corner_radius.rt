//! The radii of a rectangle's corners.
ghost use Rattle.std.specs.Prelude.{◌≡◌};
ghost use Rattle.path.specs.Arcs as arcs;

use emath::limits::is_distance;
use emath::rect::{Rect, greatest, least};

/// North is towards lesser y, west towards lesser x.
#[derive(Clone, Copy, Default, PartialEq)]
pub struct CornerRadiusF32 {
    pub nw: f32,
    pub ne: f32,
    pub sw: f32,
    pub se: f32,
}

impl CornerRadiusF32 {
    pub(crate) fn within_limits(self) -> bool
        ensures { result ≡ arcs.are_radii self }
    {
        is_distance(self.nw) && is_distance(self.ne) && is_distance(self.sw) && is_distance(self.se)
    }

    /// No radius is more than half of the shorter side.
    pub(crate) fn clamped(self, rect: Rect) -> CornerRadiusF32
        ensures { result ≡ arcs.clamped_radii rect self }
    {
        let half_width = rect.width() * 0.5;
        let half_height = rect.height() * 0.5;
        let max_radius = least(half_width, half_height);
        CornerRadiusF32 {
            nw: greatest(least(self.nw, max_radius), 0.0),
            ne: greatest(least(self.ne, max_radius), 0.0),
            sw: greatest(least(self.sw, max_radius), 0.0),
            se: greatest(least(self.se, max_radius), 0.0),
        }
    }

    pub(crate) fn is_zero(self) -> bool
        ensures { result ≡ arcs.no_radii self }
    {
        self == CornerRadiusF32::default()
    }
}
