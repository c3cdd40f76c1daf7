ghost use Rattle.std.specs.Prelude.{◌≡◌, ◌+◌, ◌<◌, true};

/// A service slip: a gate's call that is being served. It can be let go only once it is spent by a close.
pub struct Slip {
    pub(crate) axis: u8,
    pub(crate) spent: bool,
    ghost known: { axis < 2 },
}

impl Slip {
    /// The number of the slip's gate, 1 or 2.
    pub fn gate(&self) -> u8
        ensures { result ≡ self.now.axis + 1 }
    {
        self.axis + 1
    }
}

impl Drop for Slip {
    fn drop(self)
        requires { self.spent ≡ true }
    {
        let Slip { axis: _, spent: _ } = self;
    }
}
