//! What a level packs.
use choosing::Share;

/// A task, or the dual of a server of the level below.
#[derive(Clone, Copy)]
pub struct Item {
    pub share: Share,
    /// the server that it was placed in; none for the dual of a root
    pub home: Option<u8>,
}
