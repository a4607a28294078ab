// What a session goes by.
use crate::held::Held;
use crate::rule::Place;

/// A seat of the table, with the order of its held frames. One that is dropped takes its room with it.
#[derive(Drop)]
pub struct Pass<F, J> {
    pub(crate) seat: Place<F, J>,
    pub(crate) held: Held,
}
