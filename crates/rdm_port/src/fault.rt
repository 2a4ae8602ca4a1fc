//! What the program prints if it has no answer.
ghost use Rattle.std.specs.Prelude.{◌≡◌};
ghost use Rattle.rdm_port.specs.Fault.{fault_line, fault_status};

/// Why a command has no answer.
#[derive(Clone, Copy, Debug, PartialEq, Eq)]
pub enum Fault {
    /// The arguments fit no command.
    CommandLine,
    /// The bytes aren't given as pairs of hexadecimal digits.
    Hex,
    /// The UID isn't given as four hexadecimal digits, a colon and eight hexadecimal digits.
    Uid,
    /// The file can't be opened or read, or has more than 1,048,576 bytes.
    File,
    /// The file isn't JSON.
    Json,
    /// A client's call has the key of a discovery command.
    DiscoveryCommand,
    /// The file's JSON isn't a scene, or isn't a session.
    Scene,
    /// The log is full.
    Log,
    /// A client or the worker has made all its turns.
    Turns,
    /// The outcomes of a session differ from its log or its file. Only a defect of the program causes this.
    Defect,
    /// Out of memory.
    Memory,
}

impl Fault {
    /// The line that reports it.
    pub fn line(self) -> &'static str
        ensures { result.now ≡ fault_line self }
    {
        match self {
            Fault::CommandLine => "fault: command line",
            Fault::Hex => "fault: hex",
            Fault::Uid => "fault: uid",
            Fault::File => "fault: file",
            Fault::Json => "fault: json",
            Fault::DiscoveryCommand => "fault: discovery command",
            Fault::Scene => "fault: scene",
            Fault::Log => "fault: log",
            Fault::Turns => "fault: turns",
            Fault::Defect => "fault: defect",
            Fault::Memory => "fault: memory",
        }
    }

    /// The program's status with it: 2 for arguments that fit no command, 1 for all others.
    pub fn status(self) -> u8
        ensures { result ≡ fault_status self }
    {
        match self {
            Fault::CommandLine => 2,
            _ => 1,
        }
    }
}
