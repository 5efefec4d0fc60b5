//! The bytes of a paint record.
ghost use Rattle.std.specs.Prelude.{◌≡◌, slice_index};
ghost use Rattle.drawing_file.specs.Values as values;

use crate::decode::{Paint, color_of, fraction_of, kind_of};
use crate::fault::FileFault;
use ecolor::rule::Solid;
use tessellator::stroke::{PathStroke, StrokeKind};

/// A paint's bytes as a part of the file, and the kind that the last of them says.
#[derive(Clone, Copy)]
pub struct PaintBytes<'a> {
    pub bytes: &'a [u8; 17],
    pub kind: StrokeKind,
    pub ghost said: { kind ≡ values.kind (slice_index bytes.now 16) },
}

/// Refuses bytes whose last says no kind.
impl<'a> TryFrom<&'a [u8; 17]> for PaintBytes<'a> {
    ghost use Rattle.drawing_file.specs.Format.{paint_read, known_paint};

    type Error = FileFault;

    ghost try_from_gives = { λ bytes r. paint_read r ≡ known_paint bytes.now };

    fn try_from(bytes: &'a [u8; 17]) -> Result<PaintBytes<'a>, FileFault> {
        let kind = kind_of(bytes[16])?;
        Ok(PaintBytes { bytes, kind })
    }
}

/// What the record asks for.
impl<'a> From<PaintBytes<'a>> for Paint {
    ghost from_gives = { λ bytes r. r ≡ values.paint_of bytes.bytes.now };

    fn from(value: PaintBytes<'a>) -> Paint {
        let bytes = value.bytes;
        let ([fill, color, width, feathering], _) = bytes.as_chunks::<4>() else {
            unreachable!()
        };
        Paint {
            fill: color_of(*fill),
            stroke: PathStroke {
                width: fraction_of(*width),
                color: Solid {
                    color: color_of(*color),
                },
                kind: value.kind,
            },
            feathering: fraction_of(*feathering),
        }
    }
}
