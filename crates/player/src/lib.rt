// The player: a tape is played after its plan, and its answers fill a sheet. The calls are in `manager`, the formats in `tape` and `sheets`.
#![tactic(auto)]

mod numbered;
mod player;

pub use numbered::play_numbered;
pub use player::play;
