//! Why a call has no result, and the line that tells of it.
ghost use Rattle.std.specs.Prelude.{◌≡◌, ◌++◌, ◌≤◌, List, ℕ, OnOk, OnErr, IsErr};
ghost use Rattle.tool_ports.specs.Causes.{HasCause};
ghost use Rattle.tool_ports.specs.Taken.{taken_with, TakesPart};
ghost use Rattle.tool_run.specs.Inside.{status_of, line_of, IsPlain, fault_of_get, fault_of_put, fault_of_recovery, fault_of_maps, fault_of_reading, fault_of_replay, explanation_of};
ghost use Rattle.tool_run.specs.Lines.{Tells, Explains, cause_name, outside_line, bad_shard_line, bad_line_line, bad_step_line, explained_line};
ghost use Rattle.tool_run.specs.declared.fault.Fault.TheVariants.{Memory, WriteFault, Malformed};
ghost use Rattle.trace_text.specs.Report.{line_feed};
ghost use Rattle.std.specs.Int.{w64, to_be_bytes};
ghost use Rattle.hex.specs.Hex.{encode_lower};

use crate::status::Status;
use dictionary::MapFault;
use heap_model::BadHeader;
use heap_recover::RecoverFault;
use image_run::ReplayFault;
use itoa::Buffer;
use std::alloc::AllocError;
use tool_ports::{Failed, GetFault, PutImageFault, ReadAllFault, Sink, write_all};
use trace_faults::LineFault;

/// Why a call has no result.
#[derive(Clone, Copy, PartialEq, Eq, Debug)]
pub enum Fault {
    Usage,
    Memory,
    ReadFault,
    WriteFault,
    Absent,
    Malformed(BadHeader),
    Outside { at: u64, value: u64 },
    BadShard { shard: usize, at: u64 },
    BadLine { line: u64, cause: LineFault },
    BadStep { line: u64 },
    TooLong,
}

impl Fault {
    fn status(self) -> Status
        ensures { result ≡ status_of self }
    {
        Status::new(match self {
            Fault::Usage => 2,
            Fault::Memory => 3,
            Fault::ReadFault => 4,
            Fault::WriteFault => 5,
            Fault::Absent => 6,
            Fault::Malformed(_) => 7,
            Fault::Outside { at: _, value: _ } => 8,
            Fault::BadShard { shard: _, at: _ } => 9,
            Fault::BadLine { line: _, cause: _ } => 10,
            Fault::BadStep { line: _ } => 10,
            Fault::TooLong => 10,
        })
    }

    // The two parts of a line without numbers. No memory is needed for them.
    fn line<'a>(self, image: &'a str) -> (&'static str, &'a str)
        requires { IsPlain self }
        ensures { result.0.now ++ result.1.now ++ line_feed ≡ line_of self image.now }
    {
        match self {
            Fault::Usage => ("usage", ""),
            Fault::Memory => ("out of memory", ""),
            Fault::ReadFault => ("read fault", ""),
            Fault::WriteFault => ("write fault", ""),
            Fault::Absent => ("no image ", image),
            Fault::Malformed(cause) => ("bad header ", name_of_cause(cause)),
            Fault::Outside { at: _, value: _ } => ("", ""),
            Fault::BadShard { shard: _, at: _ } => ("", ""),
            Fault::BadLine { line: _, cause: _ } => ("", ""),
            Fault::BadStep { line: _ } => ("", ""),
            Fault::TooLong => ("bad trace too long", ""),
        }
    }

    // Prints the line of the fault.
    fn write<O: Sink>(self, image: &str, out: &mut O) -> Result<(), Failed>
        ensures ok { OnOk result
            (O.taken out.new ≡ taken_with (O.taken out.old) (line_of self image.now)) }
        ensures err { OnErr result
            (TakesPart (line_of self image.now) (O.taken out.old) (O.taken out.new)) }
        ensures cause { HasCause (O.faults out.old) (O.faults out.new) (IsErr result) }
    {
        match self {
            Fault::Outside { at, value } => write_outside(out, at, value),
            Fault::BadShard { shard, at } => write_bad_shard(out, shard, at),
            Fault::BadLine { line, cause: _ } => write_bad_line(out, line),
            Fault::BadStep { line } => write_bad_step(out, line),
            _ => {
                let (text, detail) = self.line(image);
                write_line(out, text, detail)
            }
        }
    }

    /// Prints the line of the fault, and gives its status. A line that the sink refuses is lost.
    pub fn tell<O: Sink>(self, image: &str, out: &mut O) -> Status
        ensures status { result ≡ status_of self }
        ensures told { Tells (line_of self image.now) (O.faults out.old) (O.faults out.new)
            (O.taken out.old) (O.taken out.new) }
        ensures later { O.faults out.old ≤ O.faults out.new }
    {
        let _ = self.write(image, out);
        self.status()
    }

    /// Says on the standard error why the line of a trace asks for nothing, where that is the fault.
    /// What can't be written is lost.
    pub fn explain<H: Sink>(self, help: &mut H)
        ensures { Explains H.faults H.taken help.old help.new (explanation_of self) }
    {
        if let Fault::BadLine { line, cause } = self {
            let _ = write_explained(help, line, cause);
        }
    }
}

fn name_of_cause(cause: BadHeader) -> &'static str
    ensures { result.now ≡ cause_name cause }
{
    match cause {
        BadHeader::Short => "short",
        BadHeader::Magic => "magic",
        BadHeader::Version => "version",
        BadHeader::Capacity => "capacity",
        BadHeader::Length => "length",
        BadHeader::State => "state",
        BadHeader::Used => "used",
        BadHeader::Kind => "kind",
    }
}

fn write_line<O: Sink>(out: &mut O, text: &str, detail: &str) -> Result<(), Failed>
    ensures ok { OnOk result
        (O.taken out.new ≡ taken_with (O.taken out.old) (text.now ++ detail.now ++ line_feed)) }
    ensures err { OnErr result
        (TakesPart (text.now ++ detail.now ++ line_feed) (O.taken out.old) (O.taken out.new)) }
    ensures cause { HasCause (O.faults out.old) (O.faults out.new) (IsErr result) }
{
    write_two(out, text.as_bytes(), detail.as_bytes())?;
    write_all(out, b"\n")
}

fn write_outside<O: Sink>(out: &mut O, at: u64, value: u64) -> Result<(), Failed>
    ensures ok { OnOk result
        (O.taken out.new ≡ taken_with (O.taken out.old) (outside_line at value)) }
    ensures err { OnErr result
        (TakesPart (outside_line at value) (O.taken out.old) (O.taken out.new)) }
    ensures cause { HasCause (O.faults out.old) (O.faults out.new) (IsErr result) }
{
    let mut number = Buffer::new();
    write_two(out, b"pointer outside at ", number.format(at).as_bytes())?;
    write_two(out, b" value ", &word_digits(value))?;
    write_all(out, b"\n")
}

fn write_bad_shard<O: Sink>(out: &mut O, shard: usize, at: u64) -> Result<(), Failed>
    ensures ok { OnOk result
        (O.taken out.new ≡ taken_with (O.taken out.old) (bad_shard_line shard at)) }
    ensures err { OnErr result
        (TakesPart (bad_shard_line shard at) (O.taken out.old) (O.taken out.new)) }
    ensures cause { HasCause (O.faults out.old) (O.faults out.new) (IsErr result) }
{
    let mut number = Buffer::new();
    write_two(out, b"bad shard ", number.format(shard).as_bytes())?;
    let mut place = Buffer::new();
    write_two(out, b" at ", place.format(at).as_bytes())?;
    write_all(out, b"\n")
}

fn write_bad_line<O: Sink>(out: &mut O, line: u64) -> Result<(), Failed>
    ensures ok { OnOk result
        (O.taken out.new ≡ taken_with (O.taken out.old) (bad_line_line line)) }
    ensures err { OnErr result
        (TakesPart (bad_line_line line) (O.taken out.old) (O.taken out.new)) }
    ensures cause { HasCause (O.faults out.old) (O.faults out.new) (IsErr result) }
{
    let mut number = Buffer::new();
    write_line(out, "bad trace line ", number.format(line))
}

fn write_explained<O: Sink>(out: &mut O, line: u64, cause: LineFault) -> Result<(), Failed>
    ensures ok { OnOk result
        (O.taken out.new ≡ taken_with (O.taken out.old) (explained_line line cause)) }
    ensures err { OnErr result
        (TakesPart (explained_line line cause) (O.taken out.old) (O.taken out.new)) }
    ensures cause { HasCause (O.faults out.old) (O.faults out.new) (IsErr result) }
{
    let mut number = Buffer::new();
    write_two(
        out,
        b"heap_tool: trace line ",
        number.format(line).as_bytes(),
    )?;
    write_two(out, b": ", cause.text().as_bytes())?;
    write_all(out, b"\n")
}

fn write_bad_step<O: Sink>(out: &mut O, line: u64) -> Result<(), Failed>
    ensures ok { OnOk result
        (O.taken out.new ≡ taken_with (O.taken out.old) (bad_step_line line)) }
    ensures err { OnErr result
        (TakesPart (bad_step_line line) (O.taken out.old) (O.taken out.new)) }
    ensures cause { HasCause (O.faults out.old) (O.faults out.new) (IsErr result) }
{
    let mut number = Buffer::new();
    write_line(out, "bad schedule line ", number.format(line))
}

// A word in sixteen hexadecimal digits.
fn word_digits(word: u64) -> [u8; 16]
    ensures { result ≡ encode_lower (to_be_bytes w64 word) }
{
    let mut digits = [0; 16];
    let _ = hex::encode_to_slice(word.to_be_bytes().as_slice(), &mut digits);
    digits
}

// One text after the other.
fn write_two<O: Sink>(out: &mut O, first: &[u8], second: &[u8]) -> Result<(), Failed>
    ensures ok { OnOk result
        (O.taken out.new ≡ taken_with (O.taken out.old) (first.now ++ second.now)) }
    ensures err { OnErr result
        (TakesPart (first.now ++ second.now) (O.taken out.old) (O.taken out.new)) }
    ensures cause { HasCause (O.faults out.old) (O.faults out.new) (IsErr result) }
{
    write_all(out, first)?;
    write_all(out, second)
}

impl From<AllocError> for Fault {
    ghost from_gives = { λ _ fault. fault ≡ Memory };

    fn from(_: AllocError) -> Self {
        Fault::Memory
    }
}

impl From<GetFault> for Fault {
    ghost from_gives = { λ cause fault. fault ≡ fault_of_get cause };

    fn from(cause: GetFault) -> Self {
        match cause {
            GetFault::Absent => Fault::Absent,
            GetFault::Failed => Fault::ReadFault,
            GetFault::Memory => Fault::Memory,
        }
    }
}

impl From<PutImageFault> for Fault {
    ghost from_gives = { λ cause fault. fault ≡ fault_of_put cause };

    fn from(cause: PutImageFault) -> Self {
        match cause {
            PutImageFault::Failed => Fault::WriteFault,
            PutImageFault::Memory => Fault::Memory,
        }
    }
}

impl From<Failed> for Fault {
    ghost from_gives = { λ _ fault. fault ≡ WriteFault };

    fn from(_: Failed) -> Self {
        Fault::WriteFault
    }
}

impl From<BadHeader> for Fault {
    ghost from_gives = { λ cause fault. fault ≡ Malformed cause };

    fn from(cause: BadHeader) -> Self {
        Fault::Malformed(cause)
    }
}

impl From<RecoverFault> for Fault {
    ghost from_gives = { λ cause fault. fault ≡ fault_of_recovery cause };

    fn from(cause: RecoverFault) -> Self {
        match cause {
            RecoverFault::Header(cause) => Fault::Malformed(cause),
            RecoverFault::Outside { at, value } => Fault::Outside { at, value },
            RecoverFault::Memory => Fault::Memory,
        }
    }
}

impl From<MapFault> for Fault {
    ghost from_gives = { λ cause fault. fault ≡ fault_of_maps cause };

    fn from(cause: MapFault) -> Self {
        match cause {
            MapFault::BadShard { shard, at } => Fault::BadShard { shard, at },
            MapFault::Memory => Fault::Memory,
        }
    }
}

impl From<ReadAllFault> for Fault {
    ghost from_gives = { λ cause fault. fault ≡ fault_of_reading cause };

    fn from(cause: ReadAllFault) -> Self {
        match cause {
            ReadAllFault::TooLong => Fault::TooLong,
            ReadAllFault::Failed => Fault::ReadFault,
            ReadAllFault::Memory => Fault::Memory,
        }
    }
}

impl From<ReplayFault> for Fault {
    ghost from_gives = { λ cause fault. fault ≡ fault_of_replay cause };

    fn from(cause: ReplayFault) -> Self {
        match cause {
            ReplayFault::Outside { at, value } => Fault::Outside { at, value },
            ReplayFault::Memory => Fault::Memory,
        }
    }
}
