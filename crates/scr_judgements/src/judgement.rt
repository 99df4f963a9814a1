//! What a command comes to.
use scr_state::Draft;
use scr_world::Reply;

/// What a command that isn't refused comes to.
#[derive(Drop)]
pub enum Judgement {
    /// It changes nothing, and answers this.
    Unchanged(Reply),
    /// It is an entry of the journal.
    Changes {
        /// What it answers.
        reply: Reply,
        /// What it makes of the state.
        draft: Draft,
    },
}
