//! The corners of rounded rectangles.
ghost use Rattle.std.specs.Prelude.{◌≡◌, ◌≤◌};
ghost use Rattle.path.specs.Arcs as arcs;

use crate::corner_radius::CornerRadiusF32;
use crate::fault::PathFault;
use crate::on_circle::Circle;
use circles::circle_for;
use emath::plane::Pos2;
use emath::rect::Rect;

/// A quarter of a circle, by where it lies of the center. South is towards greater y, east towards greater x.
#[derive(Clone, Copy)]
pub(crate) enum Quadrant {
    SouthEast,
    SouthWest,
    NorthWest,
    NorthEast,
}

/// By its number.
impl TryFrom<u8> for Quadrant {
    type Error = PathFault;

    ghost try_from_gives = { λ n r. r ≡ arcs.quadrant_of n };

    fn try_from(value: u8) -> Result<Quadrant, PathFault> {
        match value {
            0 => Ok(Quadrant::SouthEast),
            1 => Ok(Quadrant::SouthWest),
            2 => Ok(Quadrant::NorthWest),
            3 => Ok(Quadrant::NorthEast),
            _ => Err(PathFault::OutOfLimits),
        }
    }
}

/// A quadrant of a circle, with its last place or without it: a fact by itself, with no value beside it.
#[derive(Clone, Copy)]
pub(crate) struct Arc {
    pub(crate) circle: Circle,
    pub(crate) quadrant: Quadrant,
    pub(crate) drops_last: bool,
}

#[derive(Clone, Copy)]
pub(crate) struct Corners {
    pub(crate) se: Arc,
    pub(crate) sw: Arc,
    pub(crate) nw: Arc,
    pub(crate) ne: Arc,
}

/// Whether two corners leave no straight edge on a side of this length, and so would share a place.
fn corners_meet(rect: Rect, side: f32, a: f32, b: f32) -> bool
    ensures { result ≡ arcs.meet rect side a b }
{
    side <= a + b + f32::EPSILON * rect.max_elem()
}

pub(crate) fn corners_of(rect: Rect, radii: CornerRadiusF32) -> Corners
    ensures { result ≡ arcs.corners_of rect radii }
{
    let CornerRadiusF32 { nw, ne, sw, se } = radii;
    let Rect { min, max } = rect;
    let width = rect.width();
    let height = rect.height();
    Corners {
        se: Arc {
            circle: Circle {
                center: Pos2 {
                    x: max.x - se,
                    y: max.y - se,
                },
                radius: se,
            },
            quadrant: Quadrant::SouthEast,
            drops_last: corners_meet(rect, width, se, sw),
        },
        sw: Arc {
            circle: Circle {
                center: Pos2 {
                    x: min.x + sw,
                    y: max.y - sw,
                },
                radius: sw,
            },
            quadrant: Quadrant::SouthWest,
            drops_last: corners_meet(rect, height, sw, nw),
        },
        nw: Arc {
            circle: Circle {
                center: Pos2 {
                    x: min.x + nw,
                    y: min.y + nw,
                },
                radius: nw,
            },
            quadrant: Quadrant::NorthWest,
            drops_last: corners_meet(rect, width, nw, ne),
        },
        ne: Arc {
            circle: Circle {
                center: Pos2 {
                    x: max.x - ne,
                    y: min.y + ne,
                },
                radius: ne,
            },
            quadrant: Quadrant::NorthEast,
            drops_last: corners_meet(rect, height, ne, se),
        },
    }
}

impl Quadrant {
    /// How many quadrants of a circle lie before it.
    pub(crate) fn number(self) -> usize
        ensures number { result ≡ arcs.number_of self }
        ensures few { result ≤ 3 }
    {
        self as usize
    }
}

impl Arc {
    /// How many places a whole quadrant has.
    fn whole_count(self) -> usize
        ensures count { result ≡ arcs.quadrant_count self.circle.radius }
        ensures some { 1 ≤ result }
        ensures few { result ≤ 33 }
    {
        if self.circle.radius <= 0.0 {
            1
        } else {
            circle_for(self.circle.radius).len() / 4 + 1
        }
    }

    /// How many places the arc has.
    pub(crate) fn count(self) -> usize
        ensures count { result ≡ arcs.arc_count self }
        ensures few { result ≤ 33 }
    {
        let whole = self.whole_count();
        if self.drops_last { whole - 1 } else { whole }
    }
}

impl Corners {
    /// How many places the four corners have.
    pub(crate) fn count(self) -> usize
        ensures { result ≡ arcs.joined_count self }
    {
        self.se.count() + self.sw.count() + self.nw.count() + self.ne.count()
    }
}
