// The console, held to a stored output of a move. Its page: docs/CONSOLE.md.
#![tactic(auto)]

use host::console;
use std::process::ExitCode;

fn main(rt: HostRuntime) -> ExitCode {
    console::main(&rt)
}
