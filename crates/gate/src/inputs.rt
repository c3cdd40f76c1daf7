/// What a cycle brings to one gate: the encoder's count, and whether each switch is active.
#[derive(Clone, Copy, PartialEq, Eq, Debug)]
pub struct Inputs {
    pub count: i16,
    pub positive: bool,
    pub negative: bool,
    pub home: bool,
}

impl Inputs {
    /// What a cycle brings where the encoder stands and no switch is active.
    pub const STILL: Inputs = Inputs {
        count: 0,
        positive: false,
        negative: false,
        home: false,
    };
}
