ghost use Rattle.std.specs.Prelude.{OnOk};
ghost use Rattle.std.specs.Str.Lines.{lines};
ghost use Rattle.host.specs.Scripts.{PlaysWhole};

use crate::makes::{Make, Makes};
use crate::report::show_lots;
use crate::session::play_script;
use crate::tasks::{show_move, show_windings};
use anyhow::{anyhow, ensure};
use board::collect::EventRecord;
use desk::desk::Desk;
use ring::ring::Ring;
use script::boards::Boards;
use stage::codes::Wires;
use stage::dac::Dac;
use stage::pwm::Pwm;
use std::process::ExitCode;
use std::{env, fs, io};

// No error can hold it: an `anyhow::Error` keeps 120 bytes of its message.
const USAGE: &str = "usage: console [--stages A,B] [--events N] [FILE]
       console --move DESTINATION VELOCITY ACCELERATION [POWER]
       console --windings [KIND [POWER]]
       console --help
A and B are dac or pwm, and KIND is two-phase or three-phase. FILE is a script.
With - or nothing in its place it is standard input; where that is blank, lots are worked.
N, 0 to 65535, is how many records each board's event list has room for: 64 where it is left out.";

// The makes of the boards' stages, and how many records each board's event list has room for.
#[derive(Clone, Copy)]
struct Setup {
    makes: Makes,
    room: u16,
}

const MAKES: Makes = Makes {
    a: Make::Dac,
    b: Make::Pwm,
};

const ROOM: u16 = 64;

// What is done on two new boards.
#[derive(Clone, Copy)]
enum Task<'a> {
    Script(&'a str),
    Lots,
}

// Plays a script; a line that cannot be read is an error once all are played.
fn play_on<S: Wires + Drop, R: Wires + Drop>(
    rt: &HostRuntime,
    mut boards: Boards<'_, S, R>,
    script: &str,
) -> anyhow::Result<()>
    ensures { OnOk result (PlaysWhole S.Stage R.Stage S.codes R.codes (lines script.now)
        boards.entry) }
{
    let played = play_script(rt, &mut boards, script);
    boards.finish();
    ensure!(played? == 0, "some lines could not be read");
    Ok(())
}

// Works lots on two new boards with new lists.
fn work_on<S: Wires + Drop, R: Wires + Drop>(
    rt: &HostRuntime,
    makes: Makes,
    a: S,
    b: R,
    list_a: &mut Ring<'_, EventRecord>,
    list_b: &mut Ring<'_, EventRecord>,
) -> anyhow::Result<()> {
    let (mut a, mut b) = (Desk::new(a), Desk::new(b));
    let shown = show_lots(rt, makes, &mut a, &mut b, list_a, list_b);
    a.finish();
    b.finish();
    shown
}

// Does a task, whatever the makes of the boards' stages.
fn perform<S: Wires + Drop, R: Wires + Drop>(
    rt: &HostRuntime,
    setup: Setup,
    task: Task,
    a: S,
    b: R,
) -> anyhow::Result<()> {
    let room = usize::from(setup.room);
    let mut memory_a = vec![in rt.alloc(); EventRecord::BLANK; room]?;
    let mut memory_b = vec![in rt.alloc(); EventRecord::BLANK; room]?;
    let (memory_a, memory_b) = (memory_a.as_mut_slice(), memory_b.as_mut_slice());
    match task {
        Task::Script(script) => play_on(rt, Boards::new(a, b, memory_a, memory_b), script),
        Task::Lots => {
            let (mut list_a, mut list_b) = (Ring::new(memory_a), Ring::new(memory_b));
            work_on(rt, setup.makes, a, b, &mut list_a, &mut list_b)
        }
    }
}

// Each pair of makes is a type of its own, so there is a call for each.
fn on_stages(rt: &HostRuntime, setup: Setup, task: Task) -> anyhow::Result<()> {
    match (setup.makes.a, setup.makes.b) {
        (Make::Dac, Make::Dac) => perform(rt, setup, task, Dac::new(), Dac::new()),
        (Make::Dac, Make::Pwm) => perform(rt, setup, task, Dac::new(), Pwm::new()),
        (Make::Pwm, Make::Dac) => perform(rt, setup, task, Pwm::new(), Dac::new()),
        (Make::Pwm, Make::Pwm) => perform(rt, setup, task, Pwm::new(), Pwm::new()),
    }
}

// The script on standard input, or the lots where it is empty.
fn from_input(rt: &HostRuntime, setup: Setup) -> anyhow::Result<()> {
    let text = io::read_to_string(rt.alloc(), rt.stdin())?;
    let script = text.as_str();
    if script.trim().is_empty() {
        on_stages(rt, setup, Task::Lots)
    } else {
        on_stages(rt, setup, Task::Script(script))
    }
}

fn from_file(rt: &HostRuntime, setup: Setup, path: &str) -> anyhow::Result<()> {
    let text = fs::read_to_string(rt, path)?;
    on_stages(rt, setup, Task::Script(text.as_str()))
}

fn show_usage(rt: &HostRuntime) -> anyhow::Result<()> {
    println!(rt; "{USAGE}")?;
    Ok(())
}

fn refuse_words(rt: &HostRuntime) -> anyhow::Result<()> {
    let _told = eprintln!(rt; "{USAGE}");
    Err(anyhow!("these arguments are not taken"))
}

// Two boards, by the arguments behind their options.
fn with_setup(rt: &HostRuntime, setup: Setup, words: &[String]) -> anyhow::Result<()> {
    match words {
        [] => from_input(rt, setup),
        [file] => match file.as_str() {
            "-" => from_input(rt, setup),
            option if option.starts_with("--") => refuse_words(rt),
            path => from_file(rt, setup, path),
        },
        _ => refuse_words(rt),
    }
}

// Reads options with their values, each once, from the front of the arguments; `None` if a value is not taken.
fn read_setup(words: &[String]) -> Option<(Setup, &[String])> {
    let (mut makes, mut room, mut rest) = (None, None, words);
    while let [option, value, more @ ..] = rest {
        match option.as_str() {
            "--stages" if makes.is_none() => makes = Some(value.as_str().parse().ok()?),
            "--events" if room.is_none() => room = Some(value.as_str().parse().ok()?),
            _ => break,
        }
        rest = more;
    }
    let makes = makes.unwrap_or(MAKES);
    let room = room.unwrap_or(ROOM);
    Some((Setup { makes, room }, rest))
}

fn with_options(rt: &HostRuntime, words: &[String]) -> anyhow::Result<()> {
    match read_setup(words) {
        Some((setup, rest)) => with_setup(rt, setup, rest),
        None => refuse_words(rt),
    }
}

fn with_words(rt: &HostRuntime, words: &[String]) -> anyhow::Result<()> {
    let [option, rest @ ..] = words else {
        return with_options(rt, words);
    };
    match option.as_str() {
        "--move" => show_move(rt, rest),
        "--windings" => show_windings(rt, rest),
        "--help" if rest.is_empty() => show_usage(rt),
        _ => with_options(rt, words),
    }
}

// The task that the arguments ask for.
fn run(rt: &HostRuntime) -> anyhow::Result<()> {
    let words: Vec<String> = env::args(rt)?.skip(1).collect(rt.alloc())?;
    with_words(rt, words.as_slice())
}

/// The whole console: the task that its arguments ask for, and one line on standard error and status 1 where it fails.
pub fn main(rt: &HostRuntime) -> ExitCode {
    match run(rt) {
        Ok(()) => ExitCode::SUCCESS,
        Err(error) => {
            let _told = eprintln!(rt; "console: {error}");
            ExitCode::FAILURE
        }
    }
}
