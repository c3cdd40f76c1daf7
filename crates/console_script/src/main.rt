// The console, held to a stored output of the example script. Its page: docs/SCRIPT.md.
#![tactic(auto)]

use host::console;
use std::process::ExitCode;

fn main(rt: HostRuntime) -> ExitCode {
    console::main(&rt)
}
