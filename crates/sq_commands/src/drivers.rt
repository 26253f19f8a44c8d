//! `Driver`: what a rehearsal does next.
ghost use Rattle.std.specs.Prelude.{◌≡◌, ◌*◌, IfOk};
ghost use Rattle.sq_commands.specs.Driving.{event_of, first_driver, is_acting, moment_of, request_event};
ghost use Rattle.sq_commands.specs.Going.{next_request};

use crate::queues::Queue;
use crate::rehearsal_stages::{DriverStage, Pending, SentQuestion, StepKind};
use crate::rehearsed_requests::{client_of, number_after, reply_line, target_text};
use sq_base::{CheckNo, ConnNo, Copying, Fields, Moment, Text, WantOfMemory};
use sq_machine::Event;
use std::alloc::Global;

/// So many turns a check has: its steps and the acts behind them take one each.
pub const CHECK_TURNS: u8 = 12;

/// From which port clients come.
const CLIENT_PORT: u16 = 4000;

/// A driver: it asks the machine `last` requests, and sees to what follows from them.
#[derive(Drop)]
pub struct Driver {
    /// What it does next.
    pub stage: DriverStage,
    /// How many requests it asks.
    pub last: u32,
    /// The number of the request that it is at, from 1.
    pub number: u32,
    /// And its number of the sequence that requests are made by.
    pub x: u32,
    /// The check that it drives.
    pub at: Pending,
    /// What the last step said of that.
    pub said: StepKind,
    /// Whether it is in a round, in which questions are answered and open checks go on.
    pub in_round: bool,
    /// How many open checks of this round were not driven yet.
    pub left: usize,
    /// The open checks that it does not drive: those of this round that were not driven yet, and then the others.
    pub others: Queue<Pending>,
    /// The questions that were sent and have no answer.
    pub sent: Queue<SentQuestion>,
}

impl Driver {
    /// The driver that asks so many requests.
    pub fn new(alloc: Global, last: u32) -> Driver
        ensures { result ≡ first_driver last }
    {
        let mut driver = Driver {
            stage: DriverStage::Over,
            last,
            number: 0,
            x: 1,
            at: Pending {
                check: CheckNo(0),
                conn: ConnNo(0),
                more: 0,
            },
            said: StepKind::Done,
            in_round: false,
            left: 0,
            others: Queue::new(alloc),
            sent: Queue::new(alloc),
        };
        driver.next_request();
        driver
    }

    /// The moment of its events: that of the request that it is at.
    pub fn moment(&self) -> Moment
        ensures { result ≡ moment_of self.now }
    {
        Moment(100 * self.number as u64)
    }

    /// Whether acts are due to it before it goes on.
    pub fn is_acting(&self) -> bool
        ensures { result ≡ is_acting self.now.stage }
    {
        matches!(&self.stage, DriverStage::Acting)
    }

    /// Goes to the next request, if one is left.
    pub fn next_request(&mut self)
        ensures { self.new ≡ next_request self.old }
    {
        self.in_round = false;
        if self.number < self.last {
            self.number += 1;
            self.x = number_after(self.x);
            self.stage = DriverStage::Opening;
        } else {
            self.stage = DriverStage::Over;
        }
    }

    // The request that it is at, as an event.
    fn request(&self, alloc: Global) -> Result<Event, WantOfMemory>
        ensures { IfOk result (λ event. event ≡ request_event self.now) }
    {
        let method = Text::from_slice(alloc, b"GET")?;
        let target = target_text(alloc, self.x)?;
        Ok(Event::Ask {
            conn: ConnNo(self.number as u64),
            method,
            target,
            fields: Fields::new(alloc),
        })
    }

    /// The event that it wants to be made next, if there is one.
    pub fn event(&self, alloc: Global) -> Result<Option<Event>, WantOfMemory>
        ensures { IfOk result (λ event. event ≡ event_of self.now) }
    {
        match &self.stage {
            DriverStage::Opening => Ok(Some(Event::Open {
                conn: ConnNo(self.number as u64),
                addr: client_of(self.x),
                port: CLIENT_PORT,
            })),
            DriverStage::Asking => Ok(Some(self.request(alloc)?)),
            DriverStage::Stepping => Ok(Some(Event::Step {
                check: self.at.check,
            })),
            DriverStage::Acting => Ok(Some(Event::Act)),
            DriverStage::Starting { epoch, class } => Ok(Some(Event::Started {
                epoch: *epoch,
                class: class.copy(alloc)?,
            })),
            DriverStage::Replying => match self.sent.first() {
                None => Ok(None),
                Some(sent) => Ok(Some(Event::Line {
                    proc: sent.proc,
                    bytes: reply_line(alloc, sent.channel, sent.ok)?,
                })),
            },
            DriverStage::Taking => Ok(Some(Event::Take {
                check: self.at.check,
            })),
            DriverStage::Closing => Ok(Some(Event::Close { conn: self.at.conn })),
            DriverStage::Over => Ok(None),
        }
    }
}
