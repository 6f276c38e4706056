//! One worker's part of moves, over any open heap: a node goes out of its shard and is sent, tables
//! are made for shards that values go to, and what has arrived is brought in.
#![tactic(auto)]

mod arriving;
mod away;
mod inbox;
mod outbox;
mod tables;

pub use arriving::bring_in;
pub use away::{MoveAnswer, move_away};
pub use inbox::Inbox;
pub use outbox::Outbox;
pub use tables::{ShardFlags, make_tables};
