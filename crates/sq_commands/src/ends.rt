//! How a command ends.
ghost use Rattle.std.specs.Prelude.{◌≡◌};
ghost use Rattle.sq_commands.specs.Ends.{run_status};

use sq_base::Text;
use sq_replay::RunEnd;
use sq_rules::Kind;

/// How a command ends. Each has an exit status and, but for three, a last line.
#[derive(Drop)]
pub enum Status {
    /// The files were read to their end, and what the command comes to was written.
    Ok,
    /// The words are no command.
    Usage,
    /// The configuration, or one that the script names, is faulty at this line, from 1, or as a whole, at line 0.
    Config {
        line: u32,
        kind: Kind,
    },
    /// This line of the script, from 1, is outside the grammar or over a limit, or its event was refused.
    Script(u64),
    /// A file could not be read.
    ReadFault,
    /// The output could not be written.
    WriteFault,
    /// This line of the journal, from 1, is not the machine's. Both stand here without LF.
    Differs {
        line: u64,
        machine: Text,
        journal: Text,
    },
    /// An entry of the journal of a server could not be noted.
    JournalFault,
    /// The net of a server could not be opened, or its listener failed.
    Net,
    /// There is no file of this name.
    Missing(Text),
    /// There was no memory.
    WantOfMemory,
}

impl Status {
    ghost use Rattle.sq_commands.specs.Ends.{code_of};

    /// The exit status of the process.
    pub fn code(&self) -> u8
        ensures { result ≡ code_of self.now }
    {
        match self {
            Status::Ok => 0,
            Status::Usage => 1,
            Status::Config { line: _, kind: _ } => 2,
            Status::Script(_) => 3,
            Status::ReadFault => 4,
            Status::WriteFault => 5,
            Status::JournalFault => 6,
            Status::Missing(_) => 7,
            Status::Differs {
                line: _,
                machine: _,
                journal: _,
            } => 8,
            Status::Net => 9,
            Status::WantOfMemory => 10,
        }
    }
}

/// The status of a run of a script that ends so.
pub fn status_of(end: RunEnd) -> Status
    ensures { result ≡ run_status end }
{
    match end {
        RunEnd::Ok => Status::Ok,
        RunEnd::Script(line) => Status::Script(line),
        RunEnd::Config(fault) => Status::Config {
            line: fault.line,
            kind: fault.kind,
        },
        RunEnd::Missing(name) => Status::Missing(name),
        RunEnd::ReadFault => Status::ReadFault,
        RunEnd::WriteFault => Status::WriteFault,
        RunEnd::WantOfMemory => Status::WantOfMemory,
    }
}
