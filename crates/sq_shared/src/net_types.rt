//! The types of an opened net's parts, as one type that threads may name.
use sq_outside::{Another, Clock, Dialer, Listener, Resolver, Spawner, Stopper};

/// Of which types the parts of an opened net are. A net itself may be bound to the thread that opened it; its parts are not.
pub trait NetTypes {
    type L: Listener + Send + Drop;

    type T: Stopper + Send + Drop;

    type D: Dialer + Another + Send + Drop;

    type S: Spawner + Another + Send + Drop;

    type C: Clock + Another + Send + Drop;

    type Q: Resolver + Another + Send + Drop;
}

// Six types, in the order of the trait.
impl<
    L: Listener + Send + Drop,
    T: Stopper + Send + Drop,
    D: Dialer + Another + Send + Drop,
    S: Spawner + Another + Send + Drop,
    C: Clock + Another + Send + Drop,
    Q: Resolver + Another + Send + Drop,
> NetTypes for (L, T, D, S, C, Q) {
    type L = L;

    type T = T;

    type D = D;

    type S = S;

    type C = C;

    type Q = Q;
}

/// Of which types is what the threads of helper processes work with: what starts them, what their keepers look names up with, and
/// the clock. What is proved of a thread grows with each type that its function may name, so these are apart.
pub trait HelperTypes {
    type S: Spawner + Another + Send + Drop;

    type Q: Resolver + Another + Send + Drop;

    type C: Clock + Another + Send + Drop;
}

// Three types, in the order of the trait.
impl<
    S: Spawner + Another + Send + Drop,
    Q: Resolver + Another + Send + Drop,
    C: Clock + Another + Send + Drop,
> HelperTypes for (S, Q, C) {
    type S = S;

    type Q = Q;

    type C = C;
}

/// Of which types is what workers work with: whence they take links, what they dial with, and the clock.
pub trait WorkerTypes {
    type L: Listener + Send + Drop;

    type D: Dialer + Another + Send + Drop;

    type C: Clock + Another + Send + Drop;
}

// Three types, in the order of the trait.
impl<
    L: Listener + Send + Drop,
    D: Dialer + Another + Send + Drop,
    C: Clock + Another + Send + Drop,
> WorkerTypes for (L, D, C) {
    type L = L;

    type D = D;

    type C = C;
}
