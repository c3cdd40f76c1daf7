ghost use Rattle.std.specs.Prelude.{OnOk, map, string_bytes};
ghost use Rattle.host.specs.Tasks.{ShowsMove, ShowsTrial};

use travel::journey::Journey;
use travel::plan::Plan;
use windings::rig::{CROSSED, Rig};
use windings::settings::Settings;

/// A move of one gate, by its arguments.
pub fn show_move(rt: &HostRuntime, words: &[String]) -> anyhow::Result<()>
    ensures { OnOk result (ShowsMove (map string_bytes words.now)) }
{
    Journey::new(Plan::try_from(words)?)?.show(rt)?;
    Ok(())
}

/// A trial of a motor's windings, by its arguments.
pub fn show_windings(rt: &HostRuntime, words: &[String]) -> anyhow::Result<()>
    ensures { OnOk result (ShowsTrial (map string_bytes words.now)) }
{
    Rig::new(Settings::try_from(words)?, CROSSED).show(rt)?;
    Ok(())
}
