//! Strokes.
use ecolor::color::Color32;

pub mod calls;
mod draw;
mod moves;
pub mod open;
mod outline;
mod pen;

/// Where a stroke lies beside its path.
#[derive(Clone, Copy, PartialEq, Eq)]
pub enum StrokeKind {
    Inside,
    Middle,
    Outside,
}

/// Whether a path ends, or returns to its first point.
#[derive(Clone, Copy)]
pub enum PathType {
    Open,
    Closed,
}

/// What a stroke runs along: a line whose ends are not joined, or a loop around a fill,
/// which is transparent where there is none. Not an `Option` of a colour: a loop without a fill is none of a line.
#[derive(Clone, Copy)]
pub enum Course {
    Unjoined,
    Around(Color32),
}

/// A stroke's width, its colour rule and where it lies.
#[derive(Clone, Copy)]
pub struct PathStroke<C> {
    pub width: f32,
    pub color: C,
    pub kind: StrokeKind,
}

/// How a stroke is drawn: without feathering, as a faded ridge, or with feathered sides.
#[derive(Clone, Copy)]
pub enum Style {
    Hard,
    Thin,
    Thick,
}
