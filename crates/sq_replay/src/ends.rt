//! How a run ends.
use sq_base::Text;
use sq_rules::ConfError;

/// How a run ends. Each end but `Ok`, a write fault and want of memory has a last line.
#[derive(Drop)]
pub enum RunEnd {
    /// The script was read to its end, and what it comes to was written.
    Ok,
    /// This line of the script, from 1, is outside the grammar or over a limit, or its event was refused.
    Script(u64),
    /// A configuration that the script names is faulty.
    Config(ConfError),
    /// The script names a file that is not there.
    Missing(Text),
    /// The script or a file that it names could not be read.
    ReadFault,
    /// The output could not be written.
    WriteFault,
    /// There was no memory.
    WantOfMemory,
}
