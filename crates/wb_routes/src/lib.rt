//! The routes of the whiteboard: which servlet takes a request's path, which patterns are in effect, and which aren't and
//! why (OSGi Compendium 8, chapter 140).
#![tactic(auto)]

mod candidates;
mod failures;
mod home;
mod listing;
mod route_failure;
mod route_row;
mod routes;
mod select;
mod servlet;
mod table;

pub use route_failure::{RouteCause, RouteFailure};
pub use route_row::RouteRow;
pub use routes::Routes;
pub use select::{Select, select_by};
