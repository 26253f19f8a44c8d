//! The control of a server in the calling thread: the lines that it reads, what it does at each, and what it writes.
//!
//! `Control::reread` reads the file, judges its text and hands a desk the configuration that it states. It says what
//! became of that, each answer with its cause, and adds at most one entry to the desk's journal.
//!
//! `next_order` takes the next line of the control's input, in memory of a fixed size. `attend` goes through these lines
//! until `shutdown`, the end, or a fault; at each `reconfigure` it has the configuration read again and writes one line
//! that says what became of it.
//!
//! `Panel` is the trait of what runs in the calling thread of a server: a run over the locks that the threads share, with the
//! whole share of reconfigurations. The server takes a panel by value, runs it beside its threads, and hands it back with what
//! the run says of it. `ControlPanel` is `attend` as such a panel.
#![tactic(auto)]

mod attending;
mod control;
mod control_panel;
mod orders;
mod panel;
mod writing;

pub use attending::{Beside, Console, attend};
pub use control::{Control, Reread};
pub use control_panel::{ControlPanel, take_back};
pub use orders::{Order, next_order};
pub use panel::{ListenerMonitor, Monitor, Panel, PanelEnd};
pub use writing::write_reread;
