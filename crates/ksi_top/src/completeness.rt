// What was issued, and extended, is accepted.
ghost use Rattle.std.specs.Prelude.{ℕ, List, IfOk};
ghost use Rattle.ksi_ports.specs.Stored.{Held};
ghost use Rattle.ksi_words.specs.Words.{command_of};
ghost use Rattle.ksi_top.specs.Complete.{Complete};
ghost use Rattle.ksi_top.specs.Run.{run};

use crate::histories::histories_hold;
use ksi_publications::laws::publications_are_read;
use ksi_replay::laws::extensions_are_bytes;
use ksi_signature::laws::signature_is_read;

/// Over the files of a signature that was issued and extended, `verify` reports that it is accepted.
pub(crate) fn issued_is_accepted()
    ensures { (words : List (List ℕ)) (held : Held) → IfOk (command_of words) (λ asked. Complete asked held (run words held)) }
{
    histories_hold();
    extensions_are_bytes();
    signature_is_read();
    publications_are_read();
}
