//! The steps of a follower, which takes the blocks of its leader's chain in any order: what becomes
//! of each block, and laws over all that may happen.
#![tactic(auto)]

mod cause;
mod laws;
mod limits;
mod waiting;

pub use cause::Cause;
pub use chain_replay::{Receipt, Refusal};
pub use laws::{
    acknowledged_never_falls, crashes_acknowledge_the_told, crashes_keep_the_held,
    deliveries_leave_none_due, follows_the_leader, refuses_none_for_number, waits_nearby,
};
pub use limits::MAX_AHEAD;
pub use waiting::{Arrival, Waiting, arrival_in, arrival_of, position_of};
