// The console, held to a stored output of a trial of windings. Its page: docs/WINDINGS.md.
#![tactic(auto)]

use host::console;
use std::process::ExitCode;

fn main(rt: HostRuntime) -> ExitCode {
    console::main(&rt)
}
