//! Events of the machine, its answers, and entries of a journal.
use sq_base::{
    Addr, CheckNo, ConnNo, EpochNo, Fields, Moment, ProcNo, QuestionNo, SeatNo, Text, Word,
};
use sq_rules::Outcome;
use std::marker::Model;

/// Minutes by which local time is ahead of UTC, from -840 to 840.
#[derive(Clone, Copy, PartialEq, Eq, PartialOrd, Ord)]
pub struct Offset(pub i32);

impl Model for Offset {
    ghost use Rattle.std.specs.Prelude.{ℤ, pos, negsuc, ◌≤ℤ◌};

    ghost Value = { ℤ };

    ghost view = { λ a. a.0 };

    ghost invariant = { λ a. (negsuc 839 ≤ℤ a.0) × (a.0 ≤ℤ pos 840) };

    ghost inverse = { λ n. record { 0 = n } };
}

/// An event: what happens to the machine.
#[derive(Drop)]
pub enum Event {
    /// The machine begins, at this offset of local time.
    Begin {
        offset: Offset,
    },
    /// A client's connection opens.
    Open {
        conn: ConnNo,
        addr: Addr,
        port: u16,
    },
    /// A connection closes.
    Close {
        conn: ConnNo,
    },
    /// A request arrives on a connection, and its check begins.
    Ask {
        conn: ConnNo,
        method: Text,
        target: Text,
        fields: Fields,
    },
    /// A check goes on.
    Step {
        check: CheckNo,
    },
    /// The outcome of a check is taken.
    Take {
        check: CheckNo,
    },
    /// A helper process of a class of this epoch runs.
    Started {
        epoch: EpochNo,
        class: Text,
    },
    /// A helper process of a class of this epoch could not be started.
    StartFail {
        epoch: EpochNo,
        class: Text,
    },
    /// A helper process wrote a line, given without its end.
    Line {
        proc: ProcNo,
        bytes: Text,
    },
    /// A helper process ended.
    Died {
        proc: ProcNo,
    },
    /// The machine is asked for the next act that is due.
    Act,
    /// A new configuration begins an epoch: its source, or in a script the name of its file.
    Reconfigure {
        text: Text,
    },
    /// The connection asks for a seat in the delay pool of its last taken record.
    Seat {
        conn: ConnNo,
    },
    /// A seat wants so many bytes, at most 2^63 - 1.
    Grant {
        seat: SeatNo,
        wanted: u64,
    },
    /// A seat is given up.
    Leave {
        seat: SeatNo,
    },
}

/// The machine's answer to an event.
#[derive(Drop, Debug)]
pub enum Told {
    /// The number of the epoch that begins.
    Epoch(EpochNo),
    /// It was done; printed `ok`.
    Fine,
    /// The number of the check that begins.
    Check(CheckNo),
    /// The check took an answer for a class of this name without a wait: one that was kept, or a fault
    /// where its key is too long or the class's queue is full.
    Took(Text),
    /// The check waits for this question.
    Waits(QuestionNo),
    /// The check has its outcome.
    Done,
    /// The epoch of a check, and its outcome.
    Judged {
        epoch: EpochNo,
        outcome: Outcome,
    },
    /// The number of the helper process.
    Proc(ProcNo),
    /// The line replied to this question, with this result.
    Reply {
        question: QuestionNo,
        word: Word,
    },
    /// The line is outside the grammar of replies.
    Bad,
    /// The line is in the grammar of replies, and no question that was sent to its process waits for
    /// it: none on its channel, or none at all where the class has no channels.
    Stray,
    /// A helper process of this class of this epoch is to be started.
    Start {
        epoch: EpochNo,
        class: Text,
    },
    /// A question is to be sent to a process, with its channel where the class has channels.
    Send {
        proc: ProcNo,
        question: QuestionNo,
        channel: Option<u32>,
        key: Text,
    },
    /// A process is to be stopped.
    Stop(ProcNo),
    /// The number of the seat, and its pool by its place from 0.
    Seat {
        seat: SeatNo,
        pool: u32,
    },
    /// The connection's record has no pool, or one of class 5 and no tag; printed `none`.
    NoSeat,
    /// So many bytes were granted, at most 2^63 - 1.
    Granted(u64),
}

/// One line of a journal: a moment, an event, and the answer that it had.
#[derive(Drop)]
pub struct Entry {
    pub moment: Moment,
    pub event: Event,
    pub answer: Told,
}

impl Model for Entry {
    ghost use Rattle.sq_machine.specs.Entries.{Noted, IsEntry};

    ghost Value = { Noted };

    ghost view = { λ e. record { moment = e.moment; event = e.event; answer = e.answer } };

    ghost invariant = { λ e. IsEntry e.event e.answer };
}
