//! What no drawing does, whatever run of calls has made it.
#![tactic(auto)]

pub mod cut;
