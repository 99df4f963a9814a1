//! Events (OSGi Compendium 8, chapter 113): topics, patterns of topics, and the hub in which posts wait.
#![tactic(auto)]

mod bad_topic;
mod event;
mod hub;
mod pattern;
mod post;
mod reading;
mod rule;
mod topic;

pub use bad_topic::BadTopic;
pub use event::Event;
pub use hub::{Delivery, EventHub, EventsFull, Left, Publisher};
pub use pattern::TopicPattern;
pub use post::Post;
pub use topic::Topic;
