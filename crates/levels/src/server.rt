//! What the items of a level are placed in.
use choosing::Share;

/// A server and its dual, which has the same deadline and the rest of the unit as its rate.
#[derive(Clone, Copy, Default)]
pub struct Server {
    pub share: Share,
    /// the ticks left of the dual's present job
    pub dual: u32,
    /// the server of the next level that the dual was placed in; none for a root
    pub home: Option<u8>,
}
