//! Values of the program in the forms of the system's interfaces: paths as text, errors as `io::Error`, and
//! times in milliseconds.
#![tactic(auto)]

mod errors;
mod paths;
mod times;

pub use errors::memory_error;
pub use paths::{folder_and_name, folder_of, path_in, text};
pub use times::millis_of;
