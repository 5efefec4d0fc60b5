//! Drawing files: records of bytes, run one after the other into a mesh.
#![tactic(auto)]

mod decode;
pub mod fault;
mod line;
pub mod listing;
pub mod paint;
pub mod record;
pub mod runner;
