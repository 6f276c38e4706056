//! The outside of the tool as it really is: images in files, and its input and output.
#![tactic(auto)]

mod file_fault;
mod file_store;
mod input_source;
mod output_sink;
mod progress;
mod replacing;
mod told_sink;
mod told_source;
mod told_store;

pub use file_store::FileStore;
pub use input_source::InputSource;
pub use output_sink::OutputSink;
pub use progress::{Progress, Step, Stopwatch};
pub use told_sink::ToldSink;
pub use told_source::ToldSource;
pub use told_store::ToldStore;
