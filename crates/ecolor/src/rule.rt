//! Rules that say which colour a stroke bears at each place.
ghost use Rattle.std.specs.Prelude.{◌≡◌, Bool, true, false, Some, None, Option};
ghost use Rattle.emath.specs.declared.plane.Pos2.{Pos2};
ghost use Rattle.emath.specs.declared.rect.Rect.{Rect};
ghost use Rattle.ecolor.specs.Rules.{zone_colour};
ghost use Rattle.ecolor.specs.declared.color.Color32.{Color32};
ghost use Rattle.std.proofs.Common.{rules};

use crate::color::Color32;
use emath::plane::Pos2;
use emath::rect::Rect;

/// What colour a stroke has at a place, given the box of its figure.
pub trait ColorRule {
    /// Whether the answer depends on the box.
    const READS_BOX: bool;

    ghost READS_BOX: { Bool };

    /// `READS_BOX`.
    fn consults_box() -> bool
        ensures { result ≡ READS_BOX }
    {
        Self::READS_BOX
    }

    ghost colour: { Self → Rect → Pos2 → Color32 };

    ghost plain: { Self → Option Color32 };

    fn color_at(&self, bounds: Rect, pos: Pos2) -> Color32
        ensures { result ≡ colour self.now bounds pos };

    fn plain_color(&self) -> Option<Color32>
        ensures { result ≡ plain self.now };

    // unless it reads the box, the box makes no difference
    ghost boxless: { READS_BOX ≡ false → (s : Self) (b c : Rect) (p : Pos2) → colour s b p ≡ colour s c p };

    // where there is a plain colour, every place has it
    ghost everywhere: { (s : Self) (k : Color32) → plain s ≡ Some k → (b : Rect) (p : Pos2) → colour s b p ≡ k };
}

/// The same colour everywhere.
#[derive(Clone, Copy)]
pub struct Solid {
    pub color: Color32,
}

impl ColorRule for Solid {
    const READS_BOX: bool = false;

    ghost READS_BOX = { false };

    ghost colour = { λ s _ _. s.color };

    ghost plain = { λ s. Some s.color };

    ghost boxless = { Prim.search rules };

    ghost everywhere = { Prim.search rules };

    fn color_at(&self, _bounds: Rect, _pos: Pos2) -> Color32 {
        self.color
    }

    fn plain_color(&self) -> Option<Color32> {
        Some(self.color)
    }
}

/// Four colours from the left of the box to its right, a quarter of the width each.
#[derive(Clone, Copy)]
pub struct Zones {
    pub first: Color32,
    pub second: Color32,
    pub third: Color32,
    pub last: Color32,
}

impl ColorRule for Zones {
    const READS_BOX: bool = true;

    ghost READS_BOX = { true };

    ghost colour = { zone_colour };

    ghost plain = { λ _. None };

    ghost boxless = { Prim.search rules };

    ghost everywhere = { Prim.search rules };

    fn color_at(&self, bounds: Rect, pos: Pos2) -> Color32 {
        let t = (pos.x - bounds.min.x) / (bounds.max.x - bounds.min.x);
        if t < 0.25 {
            self.first
        } else if t < 0.5 {
            self.second
        } else if t < 0.75 {
            self.third
        } else {
            self.last
        }
    }

    fn plain_color(&self) -> Option<Color32> {
        None
    }
}
