ghost use Rattle.std.specs.Prelude.{◌≡◌};
ghost use Rattle.ti_port.specs.Port.{Told};
ghost use Rattle.host_run.specs.Puts.{Puts, PutsCount};

use ti_port::{Put, Sink};

/// Puts the whole text, and says whether no put failed. The first put that fails is the last one.
pub fn write_all<K: Sink>(sink: &mut K, text: &[u8]) -> bool
    ensures content { Told (Puts result text.now) (K.held sink.old) (K.held sink.new) }
    ensures count { PutsCount result (K.faults sink.old) (K.faults sink.new) }
{
    let mut sent = 0usize;
    while sent < text.len() {
        match sink.put(&text[sent..]) {
            Put::Took(count) => sent += count,
            Put::Failed => return false,
        }
    }
    true
}
