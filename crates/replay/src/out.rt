ghost use Rattle.std.specs.Prelude.{◌≡◌, ◌+◌, ◌<◌, ◌≤◌, length, MatchResult};

use crate::fault::Fault;

/// Writes answers into `bytes`, one behind the other; `len` is the place behind the last one. It stands beside the slice since std's
/// writer, which shrinks its slice instead, promises nothing of what the whole slice ends as.
#[derive(Drop)]
pub struct Out<'a> {
    pub(crate) bytes: &'a mut [u8],
    pub(crate) len: usize,
    ghost within: { len ≤ length bytes.now },
}

impl Out<'_> {
    ghost use Rattle.replay.specs.declared.fault.Fault.TheVariants.{NoRoom};
    ghost use Rattle.replay.specs.Written.{HasRoom, Appends, AppendsOrNone};

    // Writes bytes that there is room for.
    pub(crate) fn put(&mut self, more: &[u8])
        requires { HasRoom self.old (length more.now) }
        ensures { Appends self.old self.new more.now }
    {
        let start = self.len;
        let end = start + more.len();
        self.bytes[start..end].copy_from_slice(more);
        self.len = end;
    }

    // Whether there is room for so many bytes.
    pub(crate) fn room(&self, count: usize) -> Result<(), Fault>
        ensures { MatchResult result
            (λ _. HasRoom self.now count)
            (λ f. (f ≡ NoRoom) × (length self.now.bytes.now < self.now.len + count)) }
    {
        if self.bytes.len() - self.len < count {
            return Err(Fault::NoRoom);
        }
        Ok(())
    }

    /// Writes a whole answer, or nothing.
    pub fn write(&mut self, answer: &[u8]) -> Result<(), Fault>
        ensures { AppendsOrNone self.old self.new answer.now result }
    {
        self.room(answer.len())?;
        self.put(answer);
        Ok(())
    }
}
