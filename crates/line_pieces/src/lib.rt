//! Which pieces of code expressions, actions and declarations become, and what rows say between them.
#![tactic(auto)]

mod acting;
mod branches;
mod conditions;
mod counting;
mod declaring;
mod expressions;
mod facts;
mod frame;
mod home;
mod listing;
mod marking;
mod noting;
mod opening;
mod pieces;
mod setting;
mod targets;
mod work;
mod writing;
mod zeroing;

pub use branches::{Branch, Fork};
pub use counting::label_after;
pub use declaring::{channels_in, declare_names, home_for, words_in};
pub use expressions::single;
pub use facts::{facts_in, is_in};
pub use frame::Frame;
pub use home::{Home, outermost_homes};
pub use listing::Listing;
pub use marking::{LineMark, MarkedPieces};
pub use noting::{Access, ChannelEnd, ChannelPlace, Notes, Way, row_word};
pub use pieces::{GREATEST_ROWS, GREATEST_SAID};
pub use setting::{Setting, word_after};
pub use targets::{Target, target_of};
pub use work::Lent;
