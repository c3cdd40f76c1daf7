use thiserror::Error;

/// What a line of a script should have been.
#[derive(Clone, Copy, Debug, PartialEq, Eq, Error)]
pub enum Expected {
    #[error("board, command, write, read, cycle, run, reset, take, close, collect, panel, book, event, remove, pairs, wires or a mnemonic")]
    Line,
    #[error("board a or board b")]
    Board,
    #[error("command and a mnemonic, or a code from 0 to 255")]
    Command,
    #[error("write and a number from -32768 to 65535")]
    Word,
    #[error("nothing behind read, reset, take, panel, book, remove, pairs or wires")]
    Alone,
    #[error("cycle alone, or with a count from -32768 to 32767 and the letters p n h, or -, for each gate")]
    Cycle,
    #[error("run and a number from 0 to 4294967295")]
    Run,
    #[error("close, a gate, 1 or 2, and a number from -32768 to 65535")]
    Close,
    #[error("collect and a number from 0 to 255")]
    Collect,
    #[error("event and a place from 0 to 18446744073709551615")]
    Event,
    #[error("no value behind this mnemonic")]
    NoValue,
    #[error("this mnemonic and a number from -32768 to 65535")]
    WordValue,
    #[error("this mnemonic and a number from -2147483648 to 4294967295")]
    LongValue,
}
