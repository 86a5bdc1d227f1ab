use contract_semantics::CallSite;
use dep_capture::Capture;
use std::alloc::Global;
use world_state::World;

/// Where a contract runs, what it asks, and what its run changes: lent to each part of an
/// evaluation.
#[derive(Drop)]
pub struct Run<'a, C, H> {
    /// Where the memory comes from.
    pub alloc: Global,
    /// What keys hold before the block, and which the block has written.
    pub world: &'a World<C>,
    /// Which function runs, called by whom and where.
    pub site: &'a CallSite,
    /// Answers questions about the past.
    pub host: &'a mut H,
    /// What was read and put so far.
    pub capture: &'a mut Capture,
    /// What is left of the budget.
    pub left: u32,
}
