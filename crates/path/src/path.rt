//! A path: points in memory that the caller lends.
use crate::lent::Lent;
use crate::point::PathPoint;

pub mod build;
pub mod change;
pub mod turn;

pub type Path<'a> = Lent<'a, PathPoint>;
