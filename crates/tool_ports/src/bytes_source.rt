//! A source of bytes in memory, for tests.
ghost use Rattle.std.specs.Prelude.{◌≡◌, ◌<◌, ◌≤◌, vec_len};

use crate::failing_calls::FailingCalls;
use crate::fault_count::FaultCount;
use crate::sink::Failed;
use crate::source::Source;

/// Bytes in memory, which tell what is left of them. Chosen calls fail.
#[derive(Drop)]
pub struct BytesSource {
    bytes: Vec<u8>,
    given: usize,
    most: usize,
    faults: FaultCount,
    failing: FailingCalls,
    ghost gives_some: { 0 < most },
    ghost within: { given ≤ vec_len bytes },
}

impl BytesSource {
    ghost use Rattle.tool_ports.specs.BytesSource.{bytes_left, fault_count, failing_numbers, next_number, most_of};

    /// A source of these bytes, which gives at most `most` by one call. `failing` has the numbers
    /// of the calls that are to fail, counted from 0.
    pub fn new(failing: Vec<u64>, most: usize, bytes: Vec<u8>) -> Self
        requires { 0 < most }
        ensures bytes { bytes_left result ≡ bytes.items }
        ensures faults { fault_count result ≡ 0 }
        ensures failing { failing_numbers result ≡ failing.items }
        ensures next { next_number result ≡ 0 }
        ensures most { most_of result ≡ most }
    {
        BytesSource {
            bytes,
            given: 0,
            most,
            faults: FaultCount::new(),
            failing: FailingCalls::new(failing),
        }
    }

    /// The bytes that it has left.
    pub fn rest(&self) -> &[u8]
        ensures { result.now ≡ bytes_left self.now }
    {
        &self.bytes[self.given..]
    }
}

impl Source for BytesSource {
    ghost use Rattle.std.specs.Prelude.{◌≡◌, ◌↔◌, ◌<◌, ◌≤◌, [], Some, length, min, take, drop, IfOk, OnErr, IsErr};
    ghost use Rattle.tool_ports.specs.BytesSource.{bytes_left, fault_count, most_of, IsToFail, IsOneCallOn};
    ghost use Rattle.tool_ports.specs.Causes.{HasCause};
    ghost use Rattle.tool_ports.specs.Left.{left_before, IsAtEnd};

    ghost left = { λ s. Some (bytes_left s) };

    ghost faults = { fault_count };

    ghost faults_fit = { λ s. s.faults.fits };

    ghost has_ended = { λ s. bytes_left s ≡ [] };

    fn read(&mut self, buf: &mut [u8]) -> Result<usize, Failed>
        requires { 0 < length buf.old }

        // as any source
        ensures bound { IfOk result (λ n. n ≤ length buf.new) }
        ensures ok { IfOk result (λ n. Some (bytes_left self.old)
            ≡ left_before (take n buf.new) (Some (bytes_left self.new))) }
        ensures end { IfOk result (λ n. n ≡ 0 → IsAtEnd (Some (bytes_left self.old))) }
        ensures ended { IfOk result (λ n. n ≡ 0 → bytes_left self.new ≡ []) }
        ensures nothing_more { bytes_left self.old ≡ [] → IfOk result (λ n. n ≡ 0) }
        ensures stays_ended { bytes_left self.old ≡ [] → bytes_left self.new ≡ [] }
        ensures err { OnErr result (bytes_left self.new ≡ bytes_left self.old) }
        ensures cause { HasCause (fault_count self.old) (fault_count self.new) (IsErr result) }

        // the chosen calls fail, and no other
        ensures failed { IsErr result ↔ IsToFail self.old }
        ensures count { IfOk result (λ n.
            n ≡ min (length buf.old) (min (most_of self.old) (length (bytes_left self.old)))) }
        ensures behind { IfOk result (λ n. drop n buf.new ≡ drop n buf.old) }
        ensures unchanged { OnErr result (buf.new ≡ buf.old) }
        ensures next { IsOneCallOn self.old self.new }
    {
        if self.failing.begin() {
            self.faults.rise();
            return Err(Failed);
        }
        let rest = self.rest();
        let count = buf.len().min(self.most.min(rest.len()));
        buf[..count].copy_from_slice(&rest[..count]);
        self.given += count;
        Ok(count)
    }
}
