//! The limits on places and distances. A not-a-number lies within none.
ghost use Rattle.std.specs.Prelude.{◌≡◌, map};
ghost use Rattle.emath.specs.Limits as limits;

use crate::located::Located;
use crate::plane::{Pos2, Vec2};

const FARTHEST: f32 = 1_048_576.0;

fn is_coordinate(x: f32) -> bool
    ensures { result ≡ limits.is_coordinate x }
{
    (-FARTHEST..=FARTHEST).contains(&x)
}

/// Both coordinates lie within 1,048,576 of zero.
pub fn is_place(p: Pos2) -> bool
    ensures { result ≡ limits.is_place p }
{
    is_coordinate(p.x) && is_coordinate(p.y)
}

/// All of these lie at places within their limits.
pub fn all_places<P: Located>(items: &[P]) -> bool
    ensures { result ≡ limits.all_places (map P.place items.now) }
{
    items.iter().all(|item| is_place(item.pos()))
}

/// Widths, feathering and radii lie from 0 to 65,536.
pub fn is_distance(d: f32) -> bool
    ensures { result ≡ limits.is_distance d }
{
    (0.0..=65_536.0).contains(&d)
}

/// Both parts are finite.
pub fn is_vector(v: Vec2) -> bool
    ensures { result ≡ limits.is_vector v }
{
    v.x.is_finite() && v.y.is_finite()
}
