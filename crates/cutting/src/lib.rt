//! Cutting a finished mesh into parts that 16-bit indices can name.
#![tactic(auto)]

pub mod cut;
pub mod fault;
pub mod part;
mod run;
mod span;
