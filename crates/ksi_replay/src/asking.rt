// What the types keep, told to the proofs. These functions only read.
ghost use Rattle.std.specs.Prelude.{◌<◌, All};
ghost use Rattle.ksi_imprint.specs.Imprints.{IsImprint};
ghost use Rattle.ksi_schedule.specs.Events.{AskForBytes, AskForImprints, AsksForBytes, AsksForImprint};

use ksi_imprint::Imprint;
use ksi_journal::laws::are_bytes;
use ksi_schedule::Event;

/// What is asked for are imprints, of bytes.
pub(crate) fn asked_are_imprints(events: &[Event])
    ensures imprints { AskForImprints events.now }
    ensures bytes { AskForBytes events.now }
{
    for event in events {
        asked_is_imprint(event);
    }
}

fn asked_is_imprint(event: &Event)
    ensures imprint { AsksForImprint event.now }
    ensures bytes { AsksForBytes event.now }
{
    if let Event::Request(_, _, imprint, _) = event {
        is_imprint(imprint);
    }
}

fn is_imprint(imprint: &Imprint)
    ensures imprint { IsImprint imprint.now }
    ensures bytes { All (λ b. b < 256) imprint.now }
{
    let bytes = imprint.bytes();
    are_bytes(bytes);
}
