// A sounder over a pair of any kind: it takes two records and gives the taps of the room.
#![tactic(auto)]

mod calling;
mod reading;
mod running;
mod state;

pub use running::replay;
pub use state::Sounder;
