//! The tool's outside as traits: a store of heap images, a source and a sink of bytes, what stands
//! around requests, and chance, with forms in memory.
#![tactic(auto)]

mod bytes_source;
mod chances;
mod failing_calls;
mod fault_count;
mod gate;
mod image_store;
mod map_store;
mod reading;
mod seeded_chances;
mod sink;
mod source;
mod store_calls;
mod vec_sink;

pub use bytes_source::BytesSource;
pub use chances::Chances;
pub use fault_count::FaultCount;
pub use gate::{Gate, OpenGate};
pub use image_store::{GetFault, ImageStore, PutImageFault};
pub use map_store::{FailedPut, MapStore};
pub use reading::{ReadAllFault, read_all};
pub use seeded_chances::{SeededChance, SeededChances};
pub use sink::{Failed, Sink, write_all};
pub use source::Source;
pub use store_calls::StoreCalls;
pub use vec_sink::VecSink;
