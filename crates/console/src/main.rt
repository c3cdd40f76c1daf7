// The console, a program. Its page: docs/CONSOLE.md.
#![tactic(auto)]

use host::console;
use std::process::ExitCode;

fn main(rt: HostRuntime) -> ExitCode {
    console::main(&rt)
}
