//! Points, places and vertices as lines of the bits of their numbers.
#![tactic(auto)]

use ecolor::vertex::Vertex;
use emath::plane::Pos2;
use path::point::PathPoint;
use std::fmt;
use std::num::f32_to_bits_with_nan;

/// Eight hexadecimal digits. Every not-a-number has the same ones.
#[derive(Clone, Copy)]
pub struct Bits(pub f32);

/// A line for the value.
#[derive(Clone, Copy)]
pub struct Printed<T>(pub T);

impl fmt::Display for Bits {
    fn fmt<W: fmt::Write>(&self, f: &mut fmt::Formatter<W>) -> fmt::Result {
        let bits = f32_to_bits_with_nan(self.0);
        write!(f, "{bits:08x}")
    }
}

impl fmt::Display for Printed<Pos2> {
    fn fmt<W: fmt::Write>(&self, f: &mut fmt::Formatter<W>) -> fmt::Result {
        let Pos2 { x, y } = self.0;
        write!(f, "place {} {}", Bits(x), Bits(y))
    }
}

impl fmt::Display for Printed<PathPoint> {
    fn fmt<W: fmt::Write>(&self, f: &mut fmt::Formatter<W>) -> fmt::Result {
        let PathPoint { pos, normal } = self.0;
        write!(
            f,
            "point {} {} normal {} {}",
            Bits(pos.x),
            Bits(pos.y),
            Bits(normal.x),
            Bits(normal.y),
        )
    }
}

impl fmt::Display for Printed<Vertex> {
    fn fmt<W: fmt::Write>(&self, f: &mut fmt::Formatter<W>) -> fmt::Result {
        let Vertex { pos, uv, color } = self.0;
        let color = u32::from_be_bytes([color.r, color.g, color.b, color.a]);
        write!(
            f,
            "vertex {} {} texture {} {} colour {color:08x}",
            Bits(pos.x),
            Bits(pos.y),
            Bits(uv.x),
            Bits(uv.y),
        )
    }
}

/// A line for each item.
#[derive(Clone, Copy)]
pub struct Lines<'s, T>(pub &'s [T]);

impl<'s, T: Copy> fmt::Display for Lines<'s, T>
where
    Printed<T>: fmt::Display,
{
    fn fmt<W: fmt::Write>(&self, f: &mut fmt::Formatter<W>) -> fmt::Result {
        for item in self.0 {
            writeln!(f, "  {}", Printed(*item))?;
        }
        Ok(())
    }
}
