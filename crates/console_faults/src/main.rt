// The console, held to a stored output of a script with a line of each kind that cannot be read. Its page: docs/SCRIPT.md.
#![tactic(auto)]

use host::console;
use std::process::ExitCode;

fn main(rt: HostRuntime) -> ExitCode {
    console::main(&rt)
}
