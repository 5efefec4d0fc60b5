//! A list of places in memory that the caller lends.
use crate::lent::Lent;
use emath::plane::Pos2;

pub mod build;

pub type Places<'a> = Lent<'a, Pos2>;
