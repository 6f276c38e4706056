//! The gate that holds nobody back.
use crate::asserts::must_hold;
use std::test::Fail;
use tool_ports::{Gate, OpenGate};

#[test]
fn a_gate_that_is_open_lets_each_request_by(rt: HostRuntime) -> Result<(), Fail> {
    let gate = OpenGate;
    gate.pass(0, 0);
    gate.done(0, 0);
    must_hold(&rt, gate == OpenGate, "it is open");
    Ok(())
}
