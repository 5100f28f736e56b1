//! Writing a whole text.
ghost use Rattle.std.specs.Prelude.{ℕ, ◌≤◌, take, OnOk, OnErr};
ghost use Rattle.std.specs.Io.KnownBytes.{Appends};
ghost use Rattle.byte_streams.specs.Steps.{Rose};

use crate::WriteAnswer;
use crate::traits::Sink;

/// The sink failed before it had taken all.
#[derive(Clone, Copy, Debug, PartialEq, Eq)]
pub struct WriteFault;

/// Writes the whole text; after a fault a prefix of it is written.
pub fn write_text<K: Sink>(sink: &mut K, text: &[u8]) -> Result<(), WriteFault>
    ensures ok { OnOk result (Appends (K.state sink.old).holds (K.state sink.new).holds text.now) }
    ensures err { OnErr result ((n : ℕ)
        × Appends (K.state sink.old).holds (K.state sink.new).holds (take n text.now)) }
    ensures count { (K.state sink.old).faults ≤ (K.state sink.new).faults }
    ensures cause { OnErr result (Rose (K.state sink.old).faults (K.state sink.new).faults) }
{
    let mut at = 0;
    while at < text.len() {
        match sink.write(&text[at..]) {
            WriteAnswer::Took(n) => at += n,
            WriteAnswer::Failed => return Err(WriteFault),
        }
    }
    Ok(())
}
