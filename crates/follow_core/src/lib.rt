//! A follower: a node that takes the blocks of its leader's chain in any order. Where all that
//! arrives is its leader's, its chain is always a prefix of the leader's.
#![tactic(auto)]

mod deciding;
mod delivering;
mod draining;
mod follower;
mod turn;

pub use follower::Follower;
pub use turn::{FollowFault, Turn};
