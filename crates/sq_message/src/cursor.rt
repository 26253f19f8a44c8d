//! `BodyCursor`: the body of a message, in pieces.
ghost use Rattle.std.specs.Prelude.{◌≡◌, ◌+◌, ◌≤◌, ℕ, List, [], length, take, false, true, is_some, IfOk, OnErr, IsErrOf, IfSome};
ghost use Rattle.sq_message.specs.Bodies.{start, is_whole_body, is_refused, kept_bytes, line_bytes, line_limit};
ghost use Rattle.sq_message.specs.Feeding.{is_sound, WroteOfBody, Feeds, Spoils, Follows, Joins, JoinsBad, Passes, is_data};
ghost use Rattle.sq_base.specs.declared.plans.BodyPlan.{BodyPlan};

use crate::body_state::BodyState;
use crate::feed_faults::FeedFault;
use crate::taking::advance;
use sq_base::{BodyPlan, Text, WantOfMemory};
use std::alloc::Global;
use std::marker::Model;
use std::mem;

/// What was taken of an input.
#[derive(Clone, Copy)]
pub struct Fed {
    /// How many bytes at its front belong to the body.
    pub used: usize,
    /// Whether the body is complete. What follows the used bytes is then of the next message.
    pub done: bool,
}

/// The body of a message, which is fed its bytes in pieces. A contract sees where it stands, and whether
/// it goes out in chunks.
#[derive(Drop)]
pub struct BodyCursor {
    place: BodyState,
    chunked: bool,
}

impl Model for BodyCursor {
    ghost use Rattle.std.specs.Prelude.{◌≡◌, true};
    ghost use Rattle.sq_message.specs.Cursors.{Cursor};
    ghost use Rattle.sq_message.specs.Feeding.{is_sound};

    ghost Value = { Cursor };

    ghost view = { λ k. record { place = k.place; chunked = k.chunked } };

    // Of a chunk line fewer than 4,096 bytes are kept, and they may become one.
    ghost invariant = { λ k. is_sound k.place ≡ true };
}

fn is_complete(place: &BodyState) -> bool
    ensures { result ≡ is_whole_body place.now }
{
    match place {
        BodyState::Plain(left) => *left == 0,
        BodyState::Done => true,
        _ => false,
    }
}

fn is_refused(place: &BodyState) -> bool
    ensures { result ≡ is_refused place.now }
{
    match place {
        BodyState::Refused => true,
        _ => false,
    }
}

// Where data at the front of the input leads, and how many bytes of it there are; none where more than data may stand there.
fn data_at(place: &BodyState, input: &[u8]) -> Option<(BodyState, usize)>
    ensures data { is_some result ≡ is_data place.now (length input.now) }
    ensures passes { IfSome result (λ r. Passes place.now input.now r.0 r.1) }
{
    match place {
        BodyState::Plain(left) => {
            let used = (input.len() as u64).min(*left) as usize;
            Some((BodyState::Plain(*left - used as u64), used))
        }
        BodyState::Open => Some((BodyState::Open, input.len())),
        BodyState::Data(left) => {
            if input.len() as u64 <= *left {
                Some((BodyState::Data(*left - input.len() as u64), input.len()))
            } else {
                None
            }
        }
        _ => None,
    }
}

impl BodyCursor {
    /// The body of this plan from its beginning, which goes out in chunks or as its data alone. It takes no
    /// memory.
    pub fn new(alloc: Global, plan: BodyPlan, chunked_out: bool) -> BodyCursor
        ensures place { result.place ≡ start plan }
        ensures chunked { result.chunked ≡ chunked_out }
    {
        let place = match plan {
            BodyPlan::None => BodyState::Plain(0),
            BodyPlan::Length(left) => BodyState::Plain(left),
            BodyPlan::Chunked => BodyState::Line(Text::new(alloc)),
            BodyPlan::ToClose => BodyState::Open,
        };
        BodyCursor {
            place,
            chunked: chunked_out,
        }
    }

    /// How many bytes have come of a line that has not ended: of a chunk's, or of the trailers. It takes no memory.
    pub fn line_len(&self) -> usize
        ensures { result ≡ line_bytes self.now.place }
    {
        match &self.place {
            BodyState::Line(text) => text.len(),
            BodyState::Feed => 1,
            BodyState::Trailer(count, _) => *count as usize + 1,
            _ => 0,
        }
    }

    /// Takes the data at the front of the input, and says how many bytes it is, where the input has nothing else of this
    /// body: no line of a chunk and no trailer. It goes out as it stands there. Else it takes nothing. It copies no byte.
    pub fn take_data(&mut self, input: &[u8]) -> Option<Fed>
        ensures chunked { self.new.chunked ≡ self.old.chunked }
        ensures data { is_some result ≡ is_data self.old.place (length input.now) }
        ensures fed { IfSome result
            (λ f. Feeds self.old.chunked self.old.place input.now self.new.place f.used f.done []
            (take f.used input.now)) }
        ensures none { is_some result ≡ false → self.new ≡ self.old }
    {
        match data_at(&self.place, input) {
            Some((place, used)) => {
                let done = is_complete(&place);
                self.place = place;
                Some(Fed { used, done })
            }
            None => None,
        }
    }

    /// Takes the next bytes of the input, and puts what goes out at the end of `out`. A refusal puts what
    /// the bytes before it give, and the next calls refuse too. A call that has no memory puts a part, and
    /// nothing is said of the next calls: the exchange ends there.
    pub fn feed(&mut self, alloc: Global, input: &[u8], out: &mut Text) -> Result<Fed, FeedFault>
        ensures chunked { self.new.chunked ≡ self.old.chunked }
        ensures fed { IfOk result
            (λ f. Feeds self.old.chunked self.old.place input.now self.new.place f.used f.done
            out.old out.new) }
        ensures joined { (plan : BodyPlan) (before : List ℕ)
            → Follows plan self.old.chunked before self.old.place
            → IfOk result (λ f. Joins plan self.old.chunked before input.now self.new.place f.used
            out.old out.new) }
        ensures bad { IsErrOf result FeedFault.BadChunk
            → Spoils self.old.chunked self.old.place input.now self.new.place out.old out.new }
        ensures joined_bad { (plan : BodyPlan) (before : List ℕ)
            → Follows plan self.old.chunked before self.old.place
            → IsErrOf result FeedFault.BadChunk
            → JoinsBad plan self.old.chunked before input.now out.old out.new }
        ensures small { IfOk result (λ f. length out.new ≤ length out.old + f.used + 32) }
        ensures small_bad { OnErr result (length out.new ≤ length out.old + length input.now + 32) }
        ensures kept { kept_bytes self.new.place ≤ line_limit }
        ensures for_good { is_refused self.old.place ≡ true
            → IsErrOf result FeedFault.BadChunk × (out.new ≡ out.old) }
        ensures wrote { WroteOfBody self.old.chunked self.old.place input.now out.old out.new }
    {
        let mut at = 0;
        'pieces: loop {
            if is_complete(&self.place) {
                return Ok(Fed {
                    used: at,
                    done: true,
                });
            }
            if is_refused(&self.place) {
                return Err(FeedFault::BadChunk);
            }
            if at == input.len() {
                return Ok(Fed {
                    used: at,
                    done: false,
                });
            }
            let (_, rest) = input.split_at(at);
            let place = mem::replace(&mut self.place, BodyState::Refused);
            match advance(alloc, self.chunked, place, rest, out) {
                Ok((place, count)) => {
                    self.place = place;
                    at += count;
                }
                Err(WantOfMemory) => return Err(FeedFault::WantOfMemory),
            }
        }
    }
}
