//! Building paths. A builder that refuses leaves the path as it was.
ghost use Rattle.std.specs.Prelude.{◌≡◌, ◌+◌, ◌≤◌, [], ◌∷◌, length};
ghost use Rattle.path.specs.Builders.{change, added, reserved, one_point, whole_circle, open_line, line_loop};
ghost use Rattle.path.specs.Circling.{Circled};
ghost use Rattle.path.specs.Held.{held, extended, room};
ghost use Rattle.path.specs.Laws.{Adds, Along, At};
ghost use Rattle.path.specs.Lines.{corner_points, edge_normal, loop_corners, open_points};

use super::Path;
use crate::fault::PathFault;
use crate::line;
use crate::line::{Corner, Turn};
use crate::on_circle::Circle;
use crate::point::PathPoint;
use circles::circle_for;
use emath::limits::{all_places, is_distance, is_place, is_vector};
use emath::plane::{Pos2, Vec2};

impl<'a> Path<'a> {
    /// One point with its normal.
    pub fn add_point(&mut self, pos: Pos2, normal: Vec2) -> Result<(), PathFault>
        ensures outcome { change result self.new ≡ added (one_point pos normal) (held self.old) }
        ensures adds { Adds (Along (pos ∷ [])) (one_point pos normal) result self.old self.new }
    {
        if !is_place(pos) || !is_vector(normal) {
            return Err(PathFault::OutOfLimits);
        }
        self.reserve(1)?;
        self.list.push(PathPoint { pos, normal });
        Ok(())
    }

    /// A circle. Its first point is repeated last, up to the sign of a zero.
    pub fn add_circle(&mut self, center: Pos2, radius: f32) -> Result<(), PathFault>
        ensures outcome { change result self.new ≡ added (whole_circle center radius) (held self.old) }
        ensures adds { Adds (Circled center radius) (whole_circle center radius) result self.old self.new }
    {
        if !is_place(center) || !is_distance(radius) {
            return Err(PathFault::OutOfLimits);
        }
        let directions = circle_for(radius);
        self.reserve(directions.len())?;
        self.list.extend_by(directions, &Circle { center, radius });
        Ok(())
    }

    /// A straight line between two places.
    pub fn add_line_segment(&mut self, a: Pos2, b: Pos2) -> Result<(), PathFault>
        ensures outcome { change result self.new ≡ added (open_line (a ∷ b ∷ [])) (held self.old) }
        ensures adds { Adds (Along (a ∷ b ∷ [])) (open_line (a ∷ b ∷ [])) result self.old self.new }
    {
        if !is_place(a) || !is_place(b) {
            return Err(PathFault::OutOfLimits);
        }
        self.reserve(2)?;
        let normal = line::edge_normal(a, b);
        self.list.push(PathPoint { pos: a, normal });
        self.list.push(PathPoint { pos: b, normal });
        Ok(())
    }

    /// An open line over the places. A corner sharper than a right angle gets two points.
    pub fn add_open_points(&mut self, places: &[Pos2]) -> Result<(), PathFault>
        ensures outcome { change result self.new ≡ added (open_line places.now) (held self.old) }
        ensures adds { Adds (Along places.now) (open_line places.now) result self.old self.new }
    {
        if !all_places(places) {
            return Err(PathFault::OutOfLimits);
        }
        let [first, second, rest @ ..] = places else {
            return Err(PathFault::TooFewPoints);
        };
        self.reserve_open(*first, *second, rest)?;
        self.push_open(*first, *second, rest);
        Ok(())
    }

    /// Refuses where there is no space for an open line. Its points are counted only where twice as many might not fit.
    fn reserve_open(&self, first: Pos2, second: Pos2, rest: &[Pos2]) -> Result<(), PathFault>
        ensures { result ≡ reserved (length (open_points (first ∷ second ∷ rest.now))) (room (held self.now)) }
    {
        let space = self.list.space();
        if rest.len() > space {
            return Err(PathFault::NoSpace);
        }
        if 2 + 2 * rest.len() <= space {
            return Ok(());
        }
        self.reserve(line::open_count(first, second, rest))
    }

    fn push_open(&mut self, first: Pos2, second: Pos2, rest: &[Pos2])
        requires { length (open_points (first ∷ second ∷ rest.now)) ≤ room (held self.old) }
        ensures { held self.new ≡ extended (held self.old) (open_points (first ∷ second ∷ rest.now)) }
    {
        let mut edge = line::edge_normal(first, second);
        let mut normal = edge;
        let mut at = second;
        self.list.push(PathPoint { pos: first, normal });
        for next in rest {
            edge = line::edge_normal(at, *next);
            let turn = Turn::<Corner>::between(normal, edge);
            self.push_corner(at, turn.joint);
            normal = turn.normal;
            at = *next;
        }
        self.list.push(PathPoint {
            pos: at,
            normal: edge,
        });
    }

    fn push_corner(&mut self, at: Pos2, corner: Corner)
        requires { length (corner_points at corner) ≤ room (held self.old) }
        ensures { held self.new ≡ extended (held self.old) (corner_points at corner) }
    {
        match corner {
            Corner::Mitre(normal) => self.list.push(PathPoint { pos: at, normal }),
            Corner::Cut(before, after) => {
                self.list.push(PathPoint {
                    pos: at,
                    normal: before,
                });
                self.list.push(PathPoint {
                    pos: at,
                    normal: after,
                });
            }
        }
    }

    /// A loop over the places, back to the first. No corner is cut off.
    pub fn add_line_loop(&mut self, places: &[Pos2]) -> Result<(), PathFault>
        ensures outcome { change result self.new ≡ added (line_loop places.now) (held self.old) }
        ensures adds { Adds (At places.now) (line_loop places.now) result self.old self.new }
    {
        if !all_places(places) {
            return Err(PathFault::OutOfLimits);
        }
        let [first, .., last] = places else {
            return Err(PathFault::TooFewPoints);
        };
        self.reserve(places.len())?;
        self.push_loop(*last, *first, &places[1..]);
        Ok(())
    }

    // Beside `push_open`: the two loops begin and end otherwise.
    fn push_loop(&mut self, last: Pos2, first: Pos2, rest: &[Pos2])
        requires { 1 + length rest.now ≤ room (held self.old) }
        ensures { held self.new ≡ extended (held self.old) (loop_corners (edge_normal last first) (edge_normal last first) first rest.now) }
    {
        let closing = line::edge_normal(last, first);
        let mut normal = closing;
        let mut at = first;
        for next in rest {
            let turn = Turn::<Vec2>::between(normal, line::edge_normal(at, *next));
            self.list.push(PathPoint {
                pos: at,
                normal: turn.joint,
            });
            normal = turn.normal;
            at = *next;
        }
        self.list.push(PathPoint {
            pos: at,
            normal: Turn::<Vec2>::between(normal, closing).joint,
        });
    }
}
