ghost use Rattle.std.specs.Prelude.{◌∷◌, map};
ghost use Rattle.board.specs.Acts.{act_command, act_write};
ghost use Rattle.script.specs.Packets.{Sends, Fetches};
ghost use Rattle.desk.specs.Desks.{board_of};

use board::refusal::Refusal;
use desk::desk::Desk;
use stage::Stage;

/// A command and the words that it takes, in their order.
pub fn send<S: Stage + Drop>(desk: &mut Desk<S>, code: u8, words: &[u16]) -> Result<(), Refusal>
    ensures { Sends S.Stage (act_command code ∷ map act_write words.now) result
        (board_of desk.old) (board_of desk.new) }
{
    desk.command(code)?;
    for word in words {
        desk.write(*word)?;
    }
    Ok(())
}

/// A command, and so many words that it gives, in their order.
pub fn fetch<S: Stage + Drop, const N: usize>(
    desk: &mut Desk<S>,
    code: u8,
) -> Result<[u16; N], Refusal>
    ensures { Fetches S.Stage N code result (board_of desk.old) (board_of desk.new) }
{
    desk.command(code)?;
    let mut words = [0; N];
    for word in words.iter_mut() {
        *word = desk.read()?;
    }
    Ok(words)
}
