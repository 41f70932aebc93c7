// The second that a signature states.
ghost use Rattle.std.specs.Prelude.{◌≡◌};
ghost use Rattle.ksi_signature.specs.Reading.{signature_at};
ghost use Rattle.ksi_signature.specs.Seen.{seen};
ghost use Rattle.ksi_c.specs.Seconds.{second_or, second_status, stated_second};

use ksi_signature::laws::signature_is_read;
use ksi_signature::{SignatureView, view};

/// Puts the second of the signature that bytes are. 3 where they are none.
pub(crate) fn put_second(signature: &[u8], second: &mut u64) -> u32
    ensures status { result ≡ second_status (signature_at signature.now) }
    ensures value { second.new ≡ second_or second.old (signature_at signature.now) }
{
    signature_is_read();
    match view(signature) {
        Ok(signature) => {
            *second = stated(&signature);
            0
        }
        Err(_) => 3,
    }
}

fn stated(signature: &SignatureView<'_>) -> u64
    ensures { result ≡ stated_second (seen signature.now) }
{
    signature.chains()[0].time()
}
