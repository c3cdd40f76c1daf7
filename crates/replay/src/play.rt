ghost use Rattle.replay.specs.Plays.{PlaysEntry};
ghost use Rattle.desk.specs.Desks.{board_of};

use crate::entry::Entry;
use crate::lists::Lists;
use crate::reply::Reply;
use board::refusal::Refusal;
use desk::desk::Desk;
use desk::desk::elsewhere::close_elsewhere;
use stage::Stage;

/// Plays an entry at its own board, and with the event lists; the other board is there for a close elsewhere.
pub fn play<S: Stage + Drop, R: Stage + Drop>(
    own: &mut Desk<S>,
    other: &mut Desk<R>,
    lists: &mut Lists<'_>,
    entry: Entry,
) -> Result<Reply, Refusal>
    ensures { PlaysEntry S.Stage R.Stage entry result
        (board_of own.old) (board_of own.new) (board_of other.old) (board_of other.new)
        lists.old lists.new }
{
    match entry {
        Entry::Command(code) => own.command(code)?,
        Entry::Write(word) => own.write(word)?,
        Entry::Read => return Ok(Reply::Word(own.read()?)),
        Entry::Cycle(one, two) => own.cycle(one, two),
        Entry::Reset => own.reset(),
        Entry::Take => return Ok(Reply::Slip(own.take()?)),
        Entry::Close(closing) => {
            if !own.close(closing.gate, closing.word) {
                return Ok(Reply::NoSlip);
            }
        }
        Entry::CloseElsewhere(closing) => {
            match close_elsewhere(own, other, closing.gate, closing.word) {
                Some(result) => result?,
                None => return Ok(Reply::NoSlip),
            }
        }
        Entry::Look => return Ok(Reply::Look),
        Entry::Run(cycles) => own.run(u32::from(cycles)),
        Entry::Collect(gate, name) => lists.collect(name, own, gate)?,
        Entry::ReadAt(name, place) => return Ok(Reply::of_read(lists.read(name, place))),
        Entry::Remove(name) => return Ok(Reply::of_removed(lists.remove(name))),
    }
    Ok(Reply::Accepted)
}
