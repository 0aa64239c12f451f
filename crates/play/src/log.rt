// Departures noted in a log.
ghost use Rattle.std.specs.Prelude.{[], ◌∷◌};
ghost use Rattle.print.specs.Puts.{Puts};

use model::Sent;
use print::Page;

// The flow and the size of a departure.
pub fn note(log: &mut Page<'_, u16>, packet: Sent)
    ensures { Puts (packet.flow ∷ packet.size ∷ []) log.old log.new }
{
    log.push(packet.flow as u16);
    log.push(packet.size);
}
