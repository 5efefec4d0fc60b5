//! Rows of vertices that run beside a path, one vertex of each row for each point.
use ecolor::color::Color32;
use path::point::Side;

/// The colour of a row: one for all of it, or what the colour rule answers at each place, whole or faded by a factor.
#[derive(Clone, Copy)]
pub enum Paint {
    Flat(Color32),
    Core,
    Faded(f32),
}

#[derive(Clone, Copy)]
pub struct Row {
    pub side: Side,
    pub paint: Paint,
}
