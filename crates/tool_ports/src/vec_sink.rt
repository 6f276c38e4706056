//! A sink of bytes in memory, for tests.
ghost use Rattle.std.specs.Prelude.{◌≡◌, ◌<◌, ◌≤◌, [], Some, vec_len, vec_capacity, IfOk};

use crate::failing_calls::FailingCalls;
use crate::fault_count::FaultCount;
use crate::sink::{Failed, Sink};
use std::alloc::{AllocError, Global};

/// Bytes in memory, which tell what they have taken. It has its room from the start, so a write
/// takes no memory. Chosen calls fail.
#[derive(Drop)]
pub struct VecSink {
    bytes: Vec<u8>,
    room: usize,
    most: usize,
    faults: FaultCount,
    failing: FailingCalls,
    ghost takes_some: { 0 < most },
    ghost within: { vec_len bytes ≤ room },
    ghost reserved: { room ≤ vec_capacity bytes },
}

impl VecSink {
    ghost use Rattle.tool_ports.specs.VecSink.{bytes_of, fault_count, failing_numbers, next_number, most_of, room_of};

    /// An empty sink with room for `room` bytes, which takes at most `most` by one call. `failing`
    /// has the numbers of the calls that are to fail, counted from 0.
    pub fn new(
        alloc: Global,
        failing: Vec<u64>,
        most: usize,
        room: usize,
    ) -> Result<Self, AllocError>
        requires { 0 < most }
        ensures bytes { IfOk result (λ sink. bytes_of sink ≡ []) }
        ensures faults { IfOk result (λ sink. fault_count sink ≡ 0) }
        ensures failing { IfOk result (λ sink. failing_numbers sink ≡ failing.items) }
        ensures next { IfOk result (λ sink. next_number sink ≡ 0) }
        ensures most { IfOk result (λ sink. most_of sink ≡ most) }
        ensures room { IfOk result (λ sink. room_of sink ≡ room) }
    {
        Ok(VecSink {
            bytes: Vec::with_capacity(alloc, room)?,
            room,
            most,
            faults: FaultCount::new(),
            failing: FailingCalls::new(failing),
        })
    }

    /// All the bytes that it has taken.
    pub fn bytes(&self) -> &[u8]
        ensures { result.now ≡ bytes_of self.now }
    {
        &self.bytes
    }
}

impl Sink for VecSink {
    ghost use Rattle.std.specs.Prelude.{◌≡◌, ◌↔◌, ◌<◌, ◌≤◌, Some, length, min, take, IfOk, OnErr, IsErr};
    ghost use Rattle.tool_ports.specs.Causes.{HasCause};
    ghost use Rattle.tool_ports.specs.Taken.{taken_with};
    ghost use Rattle.tool_ports.specs.VecSink.{bytes_of, fault_count, most_of, room_left, IsToFail, IsOneCallOn};

    ghost taken = { λ s. Some (bytes_of s) };

    ghost faults = { fault_count };

    ghost faults_fit = { λ s. s.faults.fits };

    fn write(&mut self, bytes: &[u8]) -> Result<usize, Failed>
        requires { 0 < length bytes.now }

        // as any sink
        ensures some { IfOk result (λ n. (0 < n) × (n ≤ length bytes.now)) }
        ensures ok { IfOk result (λ n. Some (bytes_of self.new)
            ≡ taken_with (Some (bytes_of self.old)) (take n bytes.now)) }
        ensures err { OnErr result (bytes_of self.new ≡ bytes_of self.old) }
        ensures cause { HasCause (fault_count self.old) (fault_count self.new) (IsErr result) }

        // the chosen calls fail, and those without room, and no other
        ensures failed { IsErr result ↔ IsToFail self.old }
        ensures count { IfOk result (λ n.
            n ≡ min (length bytes.now) (min (most_of self.old) (room_left self.old))) }
        ensures next { IsOneCallOn self.old self.new }
    {
        let left = self.room - self.bytes.len();
        if self.failing.begin() || left == 0 {
            self.faults.rise();
            return Err(Failed);
        }
        let count = bytes.len().min(self.most.min(left));
        let Ok(()) = self.bytes.extend_from_slice(&bytes[..count]) else {
            unreachable!()
        };
        Ok(count)
    }
}
