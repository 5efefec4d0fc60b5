//! Paths: points with normals, in memory that the caller lends.
#![tactic(auto)]

mod arc;
pub mod corner_radius;
pub mod fault;
pub mod lent;
mod line;
mod on_circle;
pub mod path;
pub mod places;
pub mod point;
mod space;
