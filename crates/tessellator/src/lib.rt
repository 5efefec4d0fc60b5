//! Stroked figures: triangles with colours, drawn into memory that the caller lends.
#![tactic(auto)]

mod brush;
mod draw;
pub mod fault;
pub mod fill;
pub mod finished;
pub mod kind;
pub mod mesh;
pub mod row;
pub mod stroke;
