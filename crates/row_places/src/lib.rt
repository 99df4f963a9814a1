//! Where the one row of a table stands that is asked for, by its number or its text: definitions and lemmas that all tables
//! share, and room for a row that is to be put back.
#![tactic(auto)]

mod row_room;

pub use row_room::RowRoom;
