//! Binds a project to the ports of its tasks: the net, or the first fault of the rules that speak of ports.
#![tactic(auto)]

pub mod binding;
mod net;
mod places;

pub use binding::{BindFault, bind};
