// What every refusal tells: a number, the layer that refuses, and a place.
#![tactic(auto)]

mod refused;
mod told;

pub use refused::Refused;
pub use told::Told;
