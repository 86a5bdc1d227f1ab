//! Tests of what neither a contract nor a case shows: parts over real files and streams, lineages
//! over scratch devices, hosts that fail under a contract, and the versions of one key in a store.
#![tactic(auto)]

#[cfg(test)]
mod acts;
#[cfg(test)]
mod alike;
#[cfg(test)]
mod asked;
#[cfg(test)]
mod contracts;
#[cfg(test)]
mod devices;
#[cfg(test)]
mod gone;
#[cfg(test)]
mod lineages;
#[cfg(test)]
mod lists;
#[cfg(test)]
mod long;
#[cfg(test)]
mod ranges;
#[cfg(test)]
mod tests;
mod versions;
#[cfg(test)]
mod worked;

pub use versions::{Added, Versions};
