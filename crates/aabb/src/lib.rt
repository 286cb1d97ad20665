// Vectors, rays, boxes and the slab test: a port of aabb.rs, with what rules V1 to V5 fix of optics_core's Vec3 and Ray.
// Every call answers on every f64. `&mut self` of the Rust hands the value back here; its pair of times is the struct `Span`.
#![tactic(auto)]

pub mod vector; // vector.rt: Vec3 and Ray
pub mod bounds; // bounds.rt: Aabb
pub mod slab; // slab.rt: the slab test, the ray prepared for it (Aim), and its answer, Span

pub use bounds::Aabb;
pub use slab::{Aim, Span};
pub use vector::{Ray, Vec3};
