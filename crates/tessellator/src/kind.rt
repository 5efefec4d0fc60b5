//! What figures there are.
use crate::stroke::Style;

mod size;

/// Nothing, a fill, or a stroke: a line, a loop, or a loop around its fill.
#[derive(Clone, Copy)]
pub enum Kind {
    Nothing,
    HardFill,
    FeatheredFill,
    Line(Style),
    Loop(Style),
    Filled(Style),
}
