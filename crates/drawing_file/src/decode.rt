//! The values in the bytes of a record.
ghost use Rattle.std.specs.Prelude.{◌≡◌, ◌≤◌, ◌++◌, map, length, drop};
ghost use Rattle.std.specs.List.{list_all};
ghost use Rattle.emath.specs.Limits as limits;
ghost use Rattle.drawing_file.specs.Faults.{told};
ghost use Rattle.drawing_file.specs.Values.{fraction, place, first_place, color, known_kind};

use crate::fault::FileFault;
use ecolor::color::Color32;
use ecolor::rule::Solid;
use emath::limits::is_place;
use emath::plane::Pos2;
use std::num;
use tessellator::stroke::{PathStroke, StrokeKind};

/// What a paint record asks for.
#[derive(Clone, Copy)]
pub struct Paint {
    pub fill: Color32,
    pub stroke: PathStroke<Solid>,
    pub feathering: f32,
}

/// Four bytes, high byte first. Every pattern has a value.
pub(crate) fn fraction_of(bytes: [u8; 4]) -> f32
    ensures { result ≡ fraction bytes 0 }
{
    num::f32_from_bits_with_nan(u32::from_be_bytes(bytes))
}

fn place_of(bytes: [u8; 8]) -> Pos2
    ensures { result ≡ place bytes 0 }
{
    let [x0, x1, x2, x3, y0, y1, y2, y3] = bytes;
    Pos2 {
        x: fraction_of([x0, x1, x2, x3]),
        y: fraction_of([y0, y1, y2, y3]),
    }
}

/// Reads the places of a line into the front of `out`.
pub(crate) fn read_places(places: &[[u8; 8]], out: &mut [Pos2])
    requires { length places.now ≤ length out.old }
    ensures { out.new ≡ map first_place places.now ++ drop (length places.now) out.old }
{
    // By number: over `out.iter_mut().zip(places)` nothing is known of what was written.
    for (i, bytes) in places.iter().enumerate() {
        out[i] = place_of(*bytes);
    }
}

/// Whether every place of a line is within its limits.
pub(crate) fn all_within(places: &[[u8; 8]]) -> bool
    ensures { result ≡ list_all (λ bytes. limits.is_place (first_place bytes)) places.now }
{
    places.iter().all(|bytes| is_place(place_of(*bytes)))
}

pub(crate) fn color_of(bytes: [u8; 4]) -> Color32
    ensures { result ≡ color bytes 0 }
{
    let [r, g, b, a] = bytes;
    Color32 { r, g, b, a }
}

/// The kind that a byte says. No other byte says one.
pub(crate) fn kind_of(byte: u8) -> Result<StrokeKind, FileFault>
    ensures { told result ≡ known_kind byte }
{
    match byte {
        0 => Ok(StrokeKind::Inside),
        1 => Ok(StrokeKind::Middle),
        2 => Ok(StrokeKind::Outside),
        _ => Err(FileFault::UnknownKind),
    }
}
