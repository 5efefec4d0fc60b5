//! Rules that say which place of a texture a vertex bears.
ghost use Rattle.std.specs.Prelude.{◌≡◌};
ghost use Rattle.emath.specs.declared.plane.Pos2.{Pos2};
ghost use Rattle.ecolor.specs.Textures.{stretched, stretched_place};

use emath::plane::Pos2;
use emath::rect::Rect;
use std::ops::Range;

/// One place in the texture for each place.
pub trait TextureRule {
    ghost lies: { Self → Pos2 → Pos2 };

    fn uv_at(&self, pos: Pos2) -> Pos2
        ensures { result ≡ lies self.now pos };
}

/// The same place of the texture everywhere.
#[derive(Clone, Copy)]
pub struct Fixed {
    pub uv: Pos2,
}

impl TextureRule for Fixed {
    ghost lies = { λ s _. s.uv };

    fn uv_at(&self, _pos: Pos2) -> Pos2 {
        self.uv
    }
}

/// One box stretched over another.
#[derive(Clone, Copy)]
pub struct Stretch {
    pub from: Rect,
    pub to: Rect,
}

/// Where a coordinate lies in the range `to`, as it lies in the range `from`.
fn remap(p: f32, from: Range<f32>, to: Range<f32>) -> f32
    ensures { result ≡ stretched p from.start from.end to.start to.end }
{
    to.start + (p - from.start) / (from.end - from.start) * (to.end - to.start)
}

impl TextureRule for Stretch {
    ghost lies = { stretched_place };

    fn uv_at(&self, pos: Pos2) -> Pos2 {
        let Stretch { from, to } = *self;
        Pos2 {
            x: remap(pos.x, from.min.x..from.max.x, to.min.x..to.max.x),
            y: remap(pos.y, from.min.y..from.max.y, to.min.y..to.max.y),
        }
    }
}
