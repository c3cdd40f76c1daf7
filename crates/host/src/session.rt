ghost use Rattle.std.specs.Prelude.{◌≡◌, IfOk};
ghost use Rattle.std.specs.Str.Lines.{lines};
ghost use Rattle.host.specs.Scripts.{text_before_comment, PlaysText, PlaysScript};

use script::boards::Boards;
use script::line::Line;
use script::reply::Answer;
use stage::codes::Wires;

// A line of a script without its comment.
fn text_before_comment(line: &str) -> &str
    ensures { result.now ≡ text_before_comment line.now }
{
    line.split_once('#')
        .map_or(line, |(before, _comment)| before)
}

// Plays one line, and prints its answer; false if it cannot be read.
fn play_line<S: Wires + Drop, R: Wires + Drop>(
    rt: &HostRuntime,
    boards: &mut Boards<'_, S, R>,
    number: usize,
    text: &str,
) -> anyhow::Result<bool>
    ensures { IfOk result
        (λ readable. PlaysText S.Stage R.Stage S.codes R.codes text.now readable boards.old
        boards.new) }
{
    let words: Vec<&str> = text_before_comment(text)
        .split_whitespace()
        .collect(rt.alloc())?;
    match Line::try_from(words.as_slice()) {
        Ok(line) => {
            if let Some(answer) = boards.play(line).transpose() {
                rt.println(Answer(answer))?;
            }
            Ok(true)
        }
        Err(expected) => {
            eprintln!(rt; "line {number}: expected {expected}")?;
            Ok(false)
        }
    }
}

/// Plays a script from its first line to its last, and answers how many lines could not be read.
pub fn play_script<S: Wires + Drop, R: Wires + Drop>(
    rt: &HostRuntime,
    boards: &mut Boards<'_, S, R>,
    script: &str,
) -> anyhow::Result<usize>
    ensures { IfOk result
        (λ faults. PlaysScript S.Stage R.Stage S.codes R.codes (lines script.now) faults boards.old
        boards.new) }
{
    let mut faults = 0usize;
    for (index, line) in script.lines().enumerate() {
        if !play_line(rt, boards, index + 1, line)? {
            faults += 1;
        }
    }
    Ok(faults)
}
