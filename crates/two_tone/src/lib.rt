//! A colour rule supplied from outside the drawing library: one colour left of a border, another from it on.
#![tactic(auto)]

ghost use Rattle.std.specs.Prelude.{◌≡◌, false, None};
ghost use Rattle.path.specs.Held.{held};
ghost use Rattle.tessellator.specs.Outcome.{after};
ghost use Rattle.tessellator.specs.State.{mesh_state};
ghost use Rattle.tessellator.specs.Strokes.{pen_of, stroke_outcome};
ghost use Rattle.tessellator.specs.declared.stroke.Course.TheVariants.{Unjoined};
ghost use Rattle.two_tone.specs.Tones.{tone_at};
ghost use Rattle.std.proofs.Common.{rules};

use ecolor::color::Color32;
use ecolor::rule::ColorRule;
use emath::plane::Pos2;
use emath::rect::Rect;
use path::path::Path;
use tessellator::fault::{Appended, FigureFault};
use tessellator::mesh::Mesh;
use tessellator::stroke::PathStroke;
use tessellator::stroke::open::stroke_open;

/// Does not read the box, and has no plain colour.
#[derive(Clone, Copy)]
pub struct TwoTone {
    pub border: f32,
    pub left: Color32,
    pub right: Color32,
}

impl ColorRule for TwoTone {
    const READS_BOX: bool = false;

    ghost READS_BOX = { false };

    ghost colour = { λ s _ p. tone_at s p };

    ghost plain = { λ _. None };

    ghost boxless = { Prim.search rules };

    ghost everywhere = { Prim.search rules };

    fn color_at(&self, _bounds: Rect, pos: Pos2) -> Color32 {
        if pos.x < self.border {
            self.left
        } else {
            self.right
        }
    }

    fn plain_color(&self) -> Option<Color32> {
        None
    }
}

/// The library's stroke with this rule, and what its contract says there.
pub fn stroke_in_two_tones(
    path: &mut Path,
    feathering: f32,
    stroke: &PathStroke<TwoTone>,
    out: &mut Mesh,
) -> Result<Appended, FigureFault>
    ensures { after result path.new out.new ≡ stroke_outcome (pen_of (λ s _ p. tone_at s p) (λ _. None) feathering Unjoined stroke.now) (held path.old) (mesh_state out.old) }
{
    stroke_open(path, feathering, stroke, out)
}
