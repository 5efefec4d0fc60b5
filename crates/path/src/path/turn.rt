//! The winding of a path.
ghost use Rattle.std.specs.Prelude.{◌≡◌};
ghost use Rattle.path.specs.Held.{held, rewritten};
ghost use Rattle.path.specs.Turns as turns;

use super::Path;
use crate::point::PathPoint;
use emath::plane::Pos2;
use slice_vec::map::Map;

fn wedge(a: Pos2, b: Pos2) -> f64
    ensures { result ≡ turns.wedge a b }
{
    f64::from(a.x) * f64::from(b.y) - f64::from(b.x) * f64::from(a.y)
}

/// Twice the area within, negative where the points run counterclockwise. The products and their sum are worked in `f64`.
fn cw_signed_area(points: &[PathPoint]) -> f64
    ensures { result ≡ turns.area points.now }
{
    let Some(last) = points.last() else {
        return 0.0;
    };
    let mut area = 0.0;
    let mut previous = last.pos;
    for point in points {
        area += wedge(previous, point.pos);
        previous = point.pos;
    }
    area
}

/// The point with its normal negated.
struct Flip;

impl Map<PathPoint, PathPoint> for Flip {
    ghost image = { λ _ p. turns.flipped p };

    fn image(&self, source: PathPoint) -> PathPoint {
        PathPoint {
            pos: source.pos,
            normal: -source.normal,
        }
    }
}

impl<'a> Path<'a> {
    /// Turns a path that runs counterclockwise: its points in the other order, their normals negated.
    pub fn turn_clockwise(&mut self)
        ensures { held self.new ≡ rewritten (held self.old) (turns.turned (held self.old).used) }
    {
        if cw_signed_area(self.as_slice()) < 0.0 {
            self.list.reverse();
            self.list.change_all(&Flip);
        }
    }
}
