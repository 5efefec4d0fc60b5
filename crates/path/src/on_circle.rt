//! What stands on a circle: path points, or places alone.
ghost use Rattle.path.specs.Circling.{place_on, point_on};

use crate::point::PathPoint;
use emath::plane::*;
use slice_vec::map::Map;

#[derive(Clone, Copy)]
pub(crate) struct Circle {
    pub(crate) center: Pos2,
    pub(crate) radius: f32,
}

/// The place in a direction from the center.
impl Map<Vec2, Pos2> for Circle {
    ghost image = { λ c. place_on c.center c.radius };

    fn image(&self, source: Vec2) -> Pos2 {
        self.center + self.radius * source
    }
}

/// The same with the direction as its normal.
impl Map<Vec2, PathPoint> for Circle {
    ghost image = { λ c. point_on c.center c.radius };

    fn image(&self, source: Vec2) -> PathPoint {
        PathPoint {
            pos: self.image(source),
            normal: source,
        }
    }
}
