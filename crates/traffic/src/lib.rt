//! Processes that wait for one another and for the links.
#![tactic(auto)]

mod counts;
mod enabled;
mod here;
mod inside;
mod joining;
mod laws;
mod links;
mod message;
mod messages;
mod opened;
mod outside;
mod processor;
mod removing;
mod stop;
mod traffic;

pub use here::Here;
pub use joining::NewProcess;
pub use laws::{links_read_no_counters, messages_read_no_counters};
pub use links::Arrival;
pub use message::Message;
pub use messages::{Delivery, input_link};
pub use stop::Stop;
pub use traffic::Traffic;
