//! The questions that a helper process has not answered so far.

use std::alloc::Global;
use std::time::Duration;

/// The number at the beginning of a line, as its bytes come.
#[derive(Clone, Copy)]
pub(crate) struct LineNumber {
    pub(crate) number: Option<u64>,
    is_over: bool,
}

impl LineNumber {
    /// Nothing of the line came yet.
    pub(crate) fn new() -> LineNumber {
        LineNumber {
            number: None,
            is_over: false,
        }
    }

    /// The front of this line.
    pub(crate) fn of(line: &[u8]) -> LineNumber {
        let mut front = LineNumber::new();
        for &byte in line {
            front.take(byte);
            if front.is_over {
                break;
            }
        }
        front
    }

    /// The line's next byte.
    pub(crate) fn take(&mut self, byte: u8) {
        if self.is_over {
            return;
        }
        if byte.is_ascii_digit() {
            let so_far = self.number.unwrap_or(0).saturating_mul(10);
            self.number = Some(so_far.saturating_add(u64::from(byte - b'0')));
        } else {
            self.is_over = true;
        }
    }
}

// A question, by the number at the beginning of its line, and when it was asked.
#[derive(Clone, Copy)]
struct Question {
    number: Option<u64>,
    time: Duration,
}

/// The questions without an answer. Where a process has channels the line of a question begins with the number of its channel, and so
/// does its answer; where it has none it is asked one question at a time.
#[derive(Drop)]
pub(crate) struct Owed {
    questions: Vec<Question>,
}

impl Owed {
    /// Nothing was asked yet.
    pub(crate) fn new(alloc: Global) -> Owed {
        Owed {
            questions: Vec::new(alloc),
        }
    }

    /// Whether there is none.
    pub(crate) fn is_empty(&self) -> bool {
        self.questions.is_empty()
    }

    /// A question is asked at this time. None where there is no memory.
    pub(crate) fn ask(&mut self, front: LineNumber, time: Duration) -> Option<()> {
        let number = front.number;
        self.questions.push(Question { number, time }).ok()
    }

    // The place of the question that a line with this front answers.
    fn place(&self, front: LineNumber) -> Option<usize> {
        if self.questions.len() == 1 {
            return Some(0);
        }
        self.questions
            .iter()
            .position(|question| question.number == front.number)
    }

    /// A line with this front has come.
    pub(crate) fn answer(&mut self, front: LineNumber) {
        if let Some(place) = self.place(front) {
            if place < self.questions.len() {
                self.questions.swap_remove(place);
            }
        }
    }

    /// When the oldest of them was asked.
    pub(crate) fn oldest(&self) -> Option<Duration> {
        let mut oldest: Option<Duration> = None;
        for question in self.questions.iter() {
            oldest = Some(match oldest {
                Some(time) => time.min(question.time),
                None => question.time,
            });
        }
        oldest
    }
}
