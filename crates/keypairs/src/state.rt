// What is small of a machine's state.
// The context is kept as the word of a pair that carries it, so that it goes to the pairs in a register. The place is a node;
// `queued` words of the queue are waiting pairs, and `trailed` keys are on the trail. The default is mode 0 and its root, with
// nothing gathered, queued or on the trail.
#[repr(C)]
#[derive(Clone, Copy, Debug, PartialEq, Eq, Default)]
pub struct State {
    pub context: u64,
    pub place: u16,
    pub mode: u16,
    pub queued: u16,
    pub trailed: u16,
}

impl State {
    // So many keys are on the trail at most.
    pub const TRAIL: u16 = 64;
}
