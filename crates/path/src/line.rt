//! The corners of lines.
ghost use Rattle.std.specs.Prelude.{◌≡◌, ◌≤◌, List, ◌∷◌, length};
ghost use Rattle.emath.specs.declared.plane.Vec2.{Vec2};
ghost use Rattle.path.specs.Lines as lines;

use emath::plane::*;

/// The normals of a corner: one of a mitred corner, two of a corner that is cut off.
#[derive(Clone, Copy)]
pub(crate) enum Corner {
    Mitre(Vec2),
    Cut(Vec2, Vec2),
}

/// What stands where two edges meet, and the normal that the second is taken to have.
#[derive(Clone, Copy)]
pub(crate) struct Turn<J> {
    pub(crate) joint: J,
    pub(crate) normal: Vec2,
}

/// What two normals make where their edges meet.
pub(crate) trait Joint: Copy {
    ghost joins: { Vec2 → Vec2 → Self };

    fn between(n0: Vec2, n1: Vec2) -> Self
        ensures { result ≡ joins n0 n1 };
}

/// The normal of the edge from `a` to `b`.
pub(crate) fn edge_normal(a: Pos2, b: Pos2) -> Vec2
    ensures { result ≡ lines.edge_normal a b }
{
    (b - a).normalized().rot90()
}

/// The normals of two edges that meet. An edge of no length takes the other's.
fn meeting(n0: Vec2, n1: Vec2) -> (Vec2, Vec2)
    ensures { result ≡ (lines.before n0 n1, lines.after n0 n1) }
{
    if n0 == Vec2::ZERO {
        (n1, n1)
    } else if n1 == Vec2::ZERO {
        (n0, n0)
    } else {
        (n0, n1)
    }
}

fn half_sum(n0: Vec2, n1: Vec2) -> Vec2
    ensures { result ≡ lines.half_sum n0 n1 }
{
    (n0 + n1) / 2.0
}

fn scaled(n: Vec2) -> Vec2
    ensures { result ≡ lines.scaled n }
{
    n / n.length_sq()
}

/// A corner of an open line. One sharper than a right angle is cut off.
impl Joint for Corner {
    ghost joins = { lines.corner_of };

    fn between(n0: Vec2, n1: Vec2) -> Corner {
        let middle = half_sum(n0, n1);
        let length_sq = middle.length_sq();
        if length_sq < 0.5 {
            let center = middle.normalized();
            Corner::Cut(scaled(half_sum(n0, center)), scaled(half_sum(n1, center)))
        } else {
            Corner::Mitre(middle / length_sq)
        }
    }
}

/// The normal at a corner of a loop, which is never cut off.
impl Joint for Vec2 {
    ghost joins = { lines.mitre_of };

    fn between(n0: Vec2, n1: Vec2) -> Vec2 {
        scaled(half_sum(n0, n1))
    }
}

impl<J: Joint> Turn<J> {
    pub(crate) fn between(n0: Vec2, n1: Vec2) -> Turn<J>
        ensures { result ≡ lines.turn_by J.joins n0 n1 }
    {
        let (n0, n1) = meeting(n0, n1);
        Turn {
            joint: J::between(n0, n1),
            normal: n1,
        }
    }
}

fn corner_count(corner: Corner) -> usize
    ensures { result ≡ lines.corner_count corner }
{
    match corner {
        Corner::Mitre(_) => 1,
        Corner::Cut(_, _) => 2,
    }
}

/// How many points the open line from `first` over `second` and the rest has. Three parameters, as a pattern takes them
/// from the places: a struct of them would be made only to be taken apart. It walks as `push_open` does, and writes nothing.
pub(crate) fn open_count(first: Pos2, second: Pos2, rest: &[Pos2]) -> usize
    requires { length rest.now ≤ 1048576 }
    ensures { result ≡ length (lines.open_points (first ∷ second ∷ rest.now)) }
{
    let mut count = 2;
    let mut normal = edge_normal(first, second);
    let mut at = second;
    for next in rest {
        let turn = Turn::<Corner>::between(normal, edge_normal(at, *next));
        count += corner_count(turn.joint);
        normal = turn.normal;
        at = *next;
    }
    count
}
