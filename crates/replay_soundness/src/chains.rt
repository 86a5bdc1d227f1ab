//! Laws of where chains are found, and of the versions of their blocks, each the contract of an
//! empty function.

ghost use Rattle.replay_soundness.specs.Chains.{LogsHoldChains, InputsAddToChains, InputsAddToLogs};
ghost use Rattle.replay_soundness.specs.Chains.{InputsHoldChains, VersionsOnlyRise};

/// The blocks that the bytes of a log stand for are a chain, and its mark fits them: where it has
/// none, the last one has the first version.
pub fn logs_hold_chains()
    ensures { LogsHoldChains }
{}

/// A chain with the blocks that the frames of an input add to it is a chain, where the versions of
/// its blocks say which version is next.
pub fn inputs_add_to_chains()
    ensures { InputsAddToChains }
{}

/// A chain with the blocks that the frames of an input add to it is a chain, where a mark that fits
/// it says which version is next.
pub fn inputs_add_to_logs()
    ensures { InputsAddToLogs }
{}

/// The blocks that the frames of an input add to no block are a chain.
pub fn inputs_hold_chains()
    ensures { InputsHoldChains }
{}

/// Each block of a chain has the first or the second version, and the versions only rise.
pub fn versions_only_rise()
    ensures { VersionsOnlyRise }
{}
