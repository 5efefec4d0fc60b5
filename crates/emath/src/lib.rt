//! Numbers and places for painting: the square root of an `f32`, places, vectors, boxes and their limits.
#![tactic(auto)]

pub mod limits;
pub mod located;
pub mod plane;
pub mod rect;
pub mod root;
