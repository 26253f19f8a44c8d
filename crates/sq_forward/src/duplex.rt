//! `Duplex`: a link, both ways.
use crate::half::Half;
use sq_outside::{Out, Source};

/// What the halves of a link are: a source, and a sink that can be closed.
pub trait Ends {
    type In: Source + Send + Drop;

    type Outgo: Out + Send + Drop;
}

impl<I: Source + Send + Drop, O: Out + Send + Drop> Ends for (I, O) {
    type In = I;

    type Outgo = O;
}

/// A link to a client or to an origin, both ways.
#[derive(Drop)]
pub struct Duplex<E: Ends> {
    /// What comes from the other side.
    pub from: Half<E::In>,
    /// What goes to it.
    pub to: E::Outgo,
}
