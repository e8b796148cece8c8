//! All of the outside that a run is given.

/// Its five parts: the files, what is recorded, the control lines, the mix and the replies.
#[derive(Drop)]
pub struct World<M, I, C, W, O> {
    pub media: M,
    pub input: I,
    pub control: C,
    pub master: W,
    pub out: O,
}
