ghost use Rattle.std.specs.Prelude.{◌≡◌, option_map};
ghost use Rattle.im_shell.specs.Exits as exits;

/// How a run ended.
#[derive(Clone, Copy, Debug, PartialEq, Eq)]
pub enum Status {
    /// The whole script was played, and its replies or its report were written.
    Done,
    /// The words ask for nothing that the program does. Nothing is read or written.
    Usage,
    /// The source met a fault. Nothing is written.
    ReadFault,
    /// The sink met a fault. It took a prefix of the text.
    WriteFault,
    /// There was no memory to go on. The sink took a prefix of the text.
    NoMemory,
    /// The script has more bytes than a script may have. Nothing is written.
    ScriptTooLong,
}

impl Status {
    /// The exit status of the program.
    pub fn code(self) -> u8
        ensures { result ≡ exits.code_of self }
    {
        match self {
            Status::Done => 0,
            Status::Usage => 1,
            Status::ReadFault => 2,
            Status::WriteFault => 3,
            Status::NoMemory => 4,
            Status::ScriptTooLong => 5,
        }
    }

    /// The line on standard error, without its end. None where the whole script was played.
    pub fn line(self) -> Option<&'static str>
        ensures { option_map (λ line. line.now) result ≡ exits.line_of self }
    {
        match self {
            Status::Done => None,
            Status::Usage => Some(
                "ime: usage: ime run|race|gen [--area N] [--workers N] [--turns N] [--rows N] [--seed N]",
            ),
            Status::ReadFault => Some("ime: read failed"),
            Status::WriteFault => Some("ime: write failed"),
            Status::NoMemory => Some("ime: no memory"),
            Status::ScriptTooLong => Some("ime: script too long"),
        }
    }
}
