//! Colours of four bytes.
ghost use Rattle.std.specs.Prelude.{◌≡◌};
ghost use Rattle.ecolor.specs.Colors as colors;

use std::num::saturating_f32_to_u8;

/// Red, green, blue and alpha. Only the colour whose bytes are all 0 is transparent.
#[derive(Clone, Copy, Default, PartialEq, Eq)]
pub struct Color32 {
    pub r: u8,
    pub g: u8,
    pub b: u8,
    pub a: u8,
}

// ⌊byte · factor + 0.5⌋, from 0 to 255.
fn faded_byte(byte: u8, factor: f32) -> u8
    ensures { result ≡ colors.faded_byte factor byte }
{
    saturating_f32_to_u8(byte as f32 * factor + 0.5)
}

impl Color32 {
    pub const TRANSPARENT: Color32 = Color32 {
        r: 0,
        g: 0,
        b: 0,
        a: 0,
    };

    // A call beside `==`, since contracts name what it answers.
    pub fn is_transparent(self) -> bool
        ensures { result ≡ colors.is_transparent self }
    {
        self == Color32::TRANSPARENT
    }

    /// Each byte times the factor, rounded.
    pub fn faded(self, factor: f32) -> Color32
        ensures { result ≡ colors.faded factor self }
    {
        Color32 {
            r: faded_byte(self.r, factor),
            g: faded_byte(self.g, factor),
            b: faded_byte(self.b, factor),
            a: faded_byte(self.a, factor),
        }
    }
}
