//! Building lists of places. A call that refuses leaves the list as it was.
ghost use Rattle.std.specs.Prelude.{◌≡◌, ◌≤◌, length, Ok};
ghost use Rattle.path.specs.Arcs.{quadrant_count, arc_places, square, joined, clamped_radii, rounded_count};
ghost use Rattle.path.specs.Builders.{change, added, replaced, one_quadrant, rounded_rectangle};
ghost use Rattle.path.specs.Held.{held, extended, room};
ghost use Rattle.path.specs.Laws.{Adds, Replaces, Numbering};

use super::Places;
use crate::arc::{Arc, Corners, Quadrant, corners_of};
use crate::corner_radius::CornerRadiusF32;
use crate::fault::PathFault;
use crate::on_circle::Circle;
use circles::circle_for;
use emath::limits::{is_distance, is_place};
use emath::plane::Pos2;
use emath::rect::Rect;

impl<'a> Places<'a> {
    /// One quadrant of a circle: 0 south east of the center, 1 south west, 2 north west, 3 north east.
    // A number, since a type of four cases would ask more of the caller than a refusal does.
    pub fn add_circle_quadrant(
        &mut self,
        center: Pos2,
        radius: f32,
        quadrant: u8,
    ) -> Result<(), PathFault>
        ensures outcome { change result self.new ≡ added (one_quadrant center radius quadrant) (held self.old) }
        ensures adds { Adds (Numbering (quadrant_count radius)) (one_quadrant center radius quadrant) result self.old self.new }
    {
        if !is_place(center) || !is_distance(radius) {
            return Err(PathFault::OutOfLimits);
        }
        let arc = Arc {
            circle: Circle { center, radius },
            quadrant: Quadrant::try_from(quadrant)?,
            drops_last: false,
        };
        self.reserve(arc.count())?;
        self.push_arc(arc);
        Ok(())
    }

    fn push_arc(&mut self, arc: Arc)
        requires { length (arc_places arc) ≤ room (held self.old) }
        ensures { held self.new ≡ extended (held self.old) (arc_places arc) }
    {
        let circle = arc.circle;
        if circle.radius <= 0.0 {
            if !arc.drops_last {
                self.list.push(circle.center);
            }
            return;
        }
        let directions = circle_for(circle.radius);
        let first = arc.quadrant.number() * (directions.len() / 4);
        let end = first + arc.count();
        self.list.extend_by(&directions[first..end], &circle);
    }

    /// A rectangle with rounded corners, in place of what the list had.
    pub fn rounded_rectangle(&mut self, rect: Rect, radii: CornerRadiusF32) -> Result<(), PathFault>
        ensures outcome { change result self.new ≡ replaced (rounded_rectangle rect radii) (held self.old) }
        ensures replaces { Replaces (Numbering (rounded_count rect (clamped_radii rect radii))) (rounded_rectangle rect radii) result self.old self.new }
    {
        if !is_place(rect.min) || !is_place(rect.max) || !radii.within_limits() {
            return Err(PathFault::OutOfLimits);
        }
        let radii = radii.clamped(rect);
        if radii.is_zero() {
            self.replace_by_square(rect)
        } else {
            self.replace_by_corners(corners_of(rect, radii))
        }
    }

    // Beside `replace_by_corners`: one function for both would take a trait of two methods for three lines.
    fn replace_by_square(&mut self, rect: Rect) -> Result<(), PathFault>
        ensures { change result self.new ≡ replaced (Ok (square rect)) (held self.old) }
    {
        self.reserve_all(4)?;
        self.clear();
        self.push_square(rect);
        Ok(())
    }

    fn push_square(&mut self, rect: Rect)
        requires { 4 ≤ room (held self.old) }
        ensures { held self.new ≡ extended (held self.old) (square rect) }
    {
        let Rect { min, max } = rect;
        self.list.push(min);
        self.list.push(Pos2 { x: max.x, y: min.y });
        self.list.push(max);
        self.list.push(Pos2 { x: min.x, y: max.y });
    }

    fn replace_by_corners(&mut self, corners: Corners) -> Result<(), PathFault>
        ensures { change result self.new ≡ replaced (Ok (joined corners)) (held self.old) }
    {
        self.reserve_all(corners.count())?;
        self.clear();
        self.push_corners(corners);
        Ok(())
    }

    fn push_corners(&mut self, corners: Corners)
        requires { length (joined corners) ≤ room (held self.old) }
        ensures { held self.new ≡ extended (held self.old) (joined corners) }
    {
        self.push_arc(corners.se);
        self.push_arc(corners.sw);
        self.push_arc(corners.nw);
        self.push_arc(corners.ne);
    }
}
