/// What a translator does next with a frame. `F` is the type of a fop, `R` that of a reply, and `L` what
/// a frame keeps while it waits.
#[derive(Drop)]
pub enum Step<F, R, L> {
    /// Winds requests, each to a child by its number, under a slot of the frame; the frame waits with
    /// this local for the replies.
    Wind(Vec<(u16, u8, F)>, L),
    /// Waits with this local for something that is no wind, as a hold or a place in a queue. The node
    /// says in its context what it asks for; [`crate::Xlator::go_on`] is called once it has come.
    Wait(L),
    /// Answers the frame, which ends.
    Unwind(R),
}
