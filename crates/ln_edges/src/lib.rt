//! Points of one site type, and the pairs of them that have every other point on the plus side of a predicate of
//! three sites.
//!
//! For an orientation test these pairs are the edges of the convex hull, counterclockwise, with no special case for
//! collinear points: a point on a side is moved off it by the symbolic perturbation (Simulation of Simplicity,
//! Edelsbrunner and Mücke 1990). `read_points` reads the points of a points file, `is_edge` decides one pair, and
//! `edge_lines` writes a line for each pair.
#![tactic(auto)]

pub mod edge;
pub mod laws;
pub mod lines;
pub mod point;
pub mod read;

pub use edge::is_edge;
pub use laws::{points_suit, program_finds_edges, records_are_read_one_way, tables_give_three};
pub use lines::edge_lines;
pub use point::Point;
pub use read::{Found, read_point, read_points};
