//! The desk's lock.
use crate::hall::Hall;
use crate::ledgers::Ledgers;
use crate::wait_queues::WaitQueues;
use sq_base::WantOfMemory;
use sq_calls::DeskCalls;
use std::alloc::Global;
use std::sync::{Condvar, Mutex};

/// The places at which sessions sleep, and who sleeps at which.
#[derive(Drop)]
pub struct WaitPlaces {
    conditions: Vec<Condvar>,
    queues: WaitQueues,
}

impl WaitPlaces {
    /// A place for each of so many workers, at which nobody sleeps.
    pub fn new(alloc: Global, workers: u32) -> Result<WaitPlaces, WantOfMemory> {
        let places = workers as usize;
        let queues = WaitQueues::new(alloc, places)?;
        let mut conditions = Vec::new(alloc);
        conditions.reserve(places)?;
        for _ in 0..places {
            conditions.push_reserved(Condvar::new());
        }
        Ok(WaitPlaces { conditions, queues })
    }
}

/// The desk behind its lock, and where threads sleep: the sessions that wait for one question at a place of that, or at
/// `others` where more questions are waited for than there are places, the pump at `due` until an act may be due. A session
/// waits for one question at a time, so as many places as there are workers are enough.
#[derive(Drop)]
pub struct Room<D: DeskCalls, B: Ledgers> {
    pub(crate) hall: Mutex<Hall<D, B>>,
    answered: Vec<Condvar>,
    others: Condvar,
    pub(crate) due: Condvar,
}

impl<D: DeskCalls, B: Ledgers> Room<D, B> {
    /// A lock round this value, and places to sleep.
    pub fn new(hall: Hall<D, B>, places: WaitPlaces) -> Room<D, B> {
        let WaitPlaces { conditions, queues } = places;
        Room {
            hall: Mutex::new(hall.with_queues(queues)),
            answered: conditions,
            others: Condvar::new(),
            due: Condvar::new(),
        }
    }

    /// The value, given back.
    pub fn into_hall(self) -> Hall<D, B> {
        let Room {
            hall,
            answered: _,
            others: _,
            due: _,
        } = self;
        hall.into_inner()
    }

    /// Wakes the pump: an act may be due.
    pub(crate) fn wake_pump(&self) {
        self.due.notify_all();
    }

    // Where the session sleeps that was given this place.
    pub(crate) fn place(&self, place: Option<usize>) -> &Condvar {
        match place {
            None => &self.others,
            Some(place) => match self.answered.get(place) {
                None => &self.others,
                Some(condition) => condition,
            },
        }
    }

    /// Wakes the pump, and the sessions that wait for a question which was answered: those at the place that its queue had
    /// then, and those for whom no place was free.
    pub(crate) fn wake_answered(&self, place: Option<usize>) {
        if place.is_some() {
            self.place(place).notify_all();
        }
        self.others.notify_all();
        self.due.notify_all();
    }

    /// Wakes the pump, and all sessions: any question may have been answered.
    pub(crate) fn wake_all(&self) {
        for condition in &self.answered {
            condition.notify_all();
        }
        self.others.notify_all();
        self.due.notify_all();
    }
}
