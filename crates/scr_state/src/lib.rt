//! What a platform keeps beside its journal, and what a step makes of it.
#![tactic(auto)]

mod draft;
mod lengths;
mod room;
mod row_change;
mod state;
mod swap;
mod swap_rows;

pub use draft::Draft;
pub use lengths::next_length;
pub use room::Room;
pub use row_change::RowChange;
pub use state::State;
pub use swap::swap_in;
