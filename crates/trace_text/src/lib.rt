//! The texts of the tool, as bytes: traces and schedules are read, and replies, answers, reports
//! and maps of heaps are printed.
#![tactic(auto, using(heap_model::specs::Geometry::largest_capacity_fits))]

mod answered;
mod generate;
mod keys;
mod laws;
mod line;
mod map;
mod number;
mod pieces;
mod ranges;
mod recovered;
mod reply;
mod report;
mod request;
mod schedule;
mod sizes;
mod step;
mod trace;
mod value;

pub use answered::{answers_text, tickets_line};
pub use generate::gen_text;
pub use laws::{
    a_schedule_has_its_seats, a_schedule_has_one_reading, a_trace_has_one_reading,
    each_held_block_is_told, each_use_is_told, printed_requests_are_read, runs_are_the_longest,
};
pub use recovered::{map_text, report_text};
pub use reply::{Reply, reply_text};
pub use report::heap_line;
pub use request::{Request, TraceError};
pub use schedule::{Schedule, parse_schedule};
pub use trace::parse_trace;
