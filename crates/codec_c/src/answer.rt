//! What a call answers, and its number.
ghost use Rattle.std.specs.Prelude.{◌≡◌, ◌<◌, ◌^◌};
ghost use Rattle.codec_c.specs.Answer.{told, fault_number, number_of};

use tl_model::FrameFault;

/// What a call answers.
#[derive(Clone, Copy, Debug, PartialEq, Eq)]
pub(crate) enum Answer {
    /// All was written: a packet of so many bytes, or the samples, which are no bytes of a packet.
    Done(u32),
    /// The arguments are wrong.
    Arguments,
    /// Memory was wanting.
    Memory,
    /// The packet has a fault.
    Fault(FrameFault),
    /// A slice has more bytes than its size can say.
    SliceTooLong,
}

/// The number of an answer: a kind times 2 to the power 32, and a place.
pub(crate) fn number_of(answer: Answer) -> u64
    ensures { result ≡ number_of answer }
{
    match answer {
        Answer::Done(count) => told(0, count),
        Answer::Arguments => told(1, 0),
        Answer::Memory => told(2, 0),
        Answer::Fault(fault) => fault_number(fault),
        Answer::SliceTooLong => told(12, 0),
    }
}

fn fault_number(fault: FrameFault) -> u64
    ensures { result ≡ fault_number fault }
{
    match fault {
        FrameFault::Empty => told(3, 0),
        FrameFault::Chain => told(4, 0),
        FrameFault::Parity { slice } => told(5, slice),
        FrameFault::NotKey => told(6, 0),
        FrameFault::Header { slice } => told(7, slice),
        FrameFault::TableIndex { slice } => told(8, slice),
        FrameFault::Cover { cell } => told(9, cell),
        FrameFault::Symbol { slice } => told(10, slice),
        FrameFault::Overrun { slice } => told(11, slice),
    }
}

fn told(kind: u64, place: u32) -> u64
    requires { kind < 2 ^ 8 }
    ensures { result ≡ told kind place }
{
    kind * 0x1_0000_0000 + u64::from(place)
}
