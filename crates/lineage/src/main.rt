//! The program: it runs on its words, and exits with the number of the status.
#![tactic(auto)]

use chain_cli::{exit_of, run_on_host};
use lc_base::Resources;
use std::env;
use std::process::ExitCode;

fn main(rt: HostRuntime) -> ExitCode {
    let resources = Resources::new(rt.alloc(), &rt);
    exit_of(run_on_host(&rt, env::args(&rt), resources))
}
