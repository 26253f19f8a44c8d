//! How long links, dials and the answers of helper processes may take.
use std::time::Duration;

/// How long links, dials and the answers of helper processes may take. Those that speak of a client that waits begin to count only
/// while one waits for a worker and none is free.
#[derive(Clone, Copy)]
pub struct LinkTimes {
    /// How long a call blocks in its own socket before it waits for readiness, which takes another call of the system. Who reads what
    /// a process writes looks around so often, too.
    pub tick: Duration,
    /// How long nothing may pass on a link in either direction.
    pub silent: Duration,
    /// How long a read waits that is to return where nothing comes.
    pub soon: Duration,
    /// How long a head, or the line of a chunk, may take in all from its first byte.
    pub head: Duration,
    /// How long it may take where a client waits for a worker.
    pub head_wanted: Duration,
    /// How long after its last byte a link is kept, whoever waits.
    pub used: Duration,
    /// How long a link is kept on which no byte ever passed, whoever waits.
    pub unused: Duration,
    /// How often the doorkeeper looks around while clients wait or the server ends.
    pub look: Duration,
    /// How long a client waits before a message says so.
    pub full: Duration,
    /// How long a message is not repeated.
    pub quiet: Duration,
    /// How long a link may be silent where the server is stopped. Where links go on for longer than usual this is said of those
    /// between two requests alone.
    pub ending: Duration,
    /// How long links may go on where the server is stopped.
    pub end: Duration,
    /// By how much that is longer than usual. For as long helpers go on as before.
    pub longer: Duration,
    /// How long a worker waits at most for a client of a port that other servers share before it looks whether the server is stopped.
    pub round: Duration,
    /// How long after a link gave way clients that say nothing get no worker.
    pub crowd: Duration,
    /// How long one address of a host may take to be reached.
    pub address: Duration,
    /// How long all addresses of a host may take to be reached.
    pub host: Duration,
    /// How long a process may owe an answer.
    pub answer: Duration,
    /// How long it may where the server was stopped at least as long ago. No process is started then.
    pub answer_end: Duration,
}

impl LinkTimes {
    /// Returns the limits of a server.
    pub fn of_server() -> LinkTimes {
        LinkTimes {
            tick: Duration::from_millis(500),
            silent: Duration::from_secs(120),
            soon: Duration::from_secs(5),
            head: Duration::from_secs(60),
            head_wanted: Duration::from_secs(10),
            used: Duration::from_secs(10),
            unused: Duration::from_secs(2),
            look: Duration::from_millis(50),
            full: Duration::from_secs(1),
            quiet: Duration::from_secs(60),
            ending: Duration::from_secs(1),
            end: Duration::from_secs(30),
            longer: Duration::ZERO,
            round: Duration::from_millis(200),
            crowd: Duration::from_secs(10),
            address: Duration::from_secs(10),
            host: Duration::from_secs(30),
            answer: Duration::from_secs(60),
            answer_end: Duration::from_secs(5),
        }
    }

    /// The same where links may go on so long where the server is stopped.
    pub fn with_end(self, end: Duration) -> LinkTimes {
        LinkTimes {
            end,
            longer: end.saturating_sub(self.end),
            ..self
        }
    }

    /// Whether links go on for longer than usual where the server is stopped.
    pub(crate) fn linger(&self) -> bool {
        !self.longer.is_zero()
    }
}
