//! Colours, rules of colour, textures and vertices.
#![tactic(auto)]

pub mod color;
pub mod rule;
pub mod texture;
pub mod vertex;
