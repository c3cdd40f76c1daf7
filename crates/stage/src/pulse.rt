/// What a PWM phase has on its two lines.
#[derive(Clone, Copy, PartialEq, Eq, Debug)]
pub struct Pulse {
    pub magnitude: u8,
    pub negative: bool,
}
