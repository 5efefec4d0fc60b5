//! The points of a path, and the places beside them.
ghost use Rattle.std.specs.Prelude.{◌≡◌};
ghost use Rattle.path.specs.Points as points;

use emath::located::Located;
use emath::plane::*;

/// A place, and the normal of the path there.
#[derive(Clone, Copy, Default, PartialEq)]
pub struct PathPoint {
    pub pos: Pos2,
    pub normal: Vec2,
}

/// Where a place lies beside its path point: so far along the normal, or against it, or at the point.
/// At an end of a line also so far past the end.
#[derive(Clone, Copy)]
pub enum Side {
    Outward(f32),
    Along,
    Inward(f32),
    OutwardPast(f32, f32),
    InwardPast(f32, f32),
}

impl Located for PathPoint {
    ghost place = { λ p. p.pos };

    fn pos(&self) -> Pos2 {
        self.pos
    }
}

impl PathPoint {
    /// The place on a side of the point.
    pub fn place(self, side: Side) -> Pos2
        ensures { result ≡ points.place_of side self }
    {
        let PathPoint { pos, normal } = self;
        match side {
            Side::Outward(d) => pos + normal * d,
            Side::Along => pos,
            Side::Inward(d) => pos - normal * d,
            Side::OutwardPast(d, past) => pos + normal * d + normal.rot90() * past,
            Side::InwardPast(d, past) => pos - normal * d + normal.rot90() * past,
        }
    }

    /// The point moved to a side, with its normal.
    pub fn moved(self, side: Side) -> PathPoint
        ensures { result ≡ points.moved side self }
    {
        PathPoint {
            pos: self.place(side),
            normal: self.normal,
        }
    }
}
