//! The generic list; definitions of what a reader returns and of what a call that appends a text leaves.
#![tactic(auto)]

mod list_of;

pub use list_of::{ListOf, MOST_ITEMS};
