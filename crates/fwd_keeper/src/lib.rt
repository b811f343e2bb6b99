//! A keeper of offsets: for each database and path the offset in a followed file up to which it was read.
//!
//! A keeper counts its failures, and an implementation may keep a ghost log of the calls made on it. What an
//! honest keeper may hold after its calls is a function of that log. Each offset that it holds was there at
//! first or was put (`held_was_given_or_put`).
#![tactic(auto)]

mod errors;
mod keeper;
mod theorems;

pub use errors::KeepErr;
pub use keeper::Keeper;
pub use theorems::held_was_given_or_put;
