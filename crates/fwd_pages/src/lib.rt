//! The pages of a live run: its counters for Prometheus and as JSON, its chunks, its health and its uptime.
//!
//! Each page is exactly its definition of the names, the table and the tally, in the shapes of Fluent Bit's
//! pages, with what this program counts besides. What isn't counted is left out. Names stand in quotes as
//! they are: those of inputs and outputs are a plugin's name, a dot and a number. The only error is out of
//! memory.
#![tactic(auto)]

mod count;
mod health;
mod metric;
mod metrics;
mod prometheus;
mod sample;
mod storage;

pub use count::{Counted, count_rows};
pub use health::is_healthy;
pub use metric::{InputMetric, OutputMetric};
pub use metrics::{metrics_page, uptime_page};
pub use prometheus::prometheus_page;
pub use storage::storage_page;
