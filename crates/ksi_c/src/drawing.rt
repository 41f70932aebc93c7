// Steps as numbers, digests and bytes.
ghost use Rattle.std.specs.Prelude.{◌≡◌, is_some, option_map, slice_get};
ghost use Rattle.ksi_imprint.specs.Imprints.{imprint_of};
ghost use Rattle.ksi_signature.specs.Seen.{seen};
ghost use Rattle.ksi_verifier.specs.Steps.{step_seen, steps};
ghost use Rattle.ksi_c.specs.Drawn.{flag, padded, side_number, step_or, step_told};

use crate::drawn::KsiStep;
use crate::telling::digest_of;
use ksi_imprint::Sha;
use ksi_signature::SignatureView;
use ksi_split::Side;
use ksi_verifier::{Step, find_step, lent_calendar};

/// Puts a step of a signature, and says whether there is one of this number.
pub(crate) fn put_step(signature: &SignatureView<'_>, number: usize, out: &mut KsiStep) -> bool
    ensures found { result ≡ is_some (slice_get (steps imprint_of (seen signature.now)) number) }
    ensures step { out.new ≡ step_or out.old (slice_get (steps imprint_of (seen signature.now)) number) }
{
    let chains = signature.chains();
    match signature.calendar() {
        None => put(&find_step::<Sha>(chains, &None, number), out),
        Some(calendar) => {
            let links = calendar.links();
            let part = lent_calendar(&calendar, &links);
            put(&find_step::<Sha>(chains, &Some(part), number), out)
        }
    }
}

fn put(found: &Option<Step<'_>>, out: &mut KsiStep) -> bool
    ensures found { result ≡ is_some (option_map step_seen found.now) }
    ensures step { out.new ≡ step_or out.old (option_map step_seen found.now) }
{
    match found {
        None => false,
        Some(step) => {
            fill(step, out);
            true
        }
    }
}

fn fill(step: &Step<'_>, out: &mut KsiStep)
    ensures { out.new ≡ step_told (step_seen step.now) }
{
    out.chain = step.chain as u64;
    out.place = step.place as u64;
    out.size = step.sibling.len() as u64;
    out.calendar = flag(step.calendar);
    out.side = side_number(step.side);
    out.level = step.level as u32;
    out.raw = flag(step.raw);
    out.node = digest_of(&step.node);
    out.join = digest_of(&step.join);
    pad(step.sibling, &mut out.sibling);
}

/// Fills a block with the first bytes, and with zeros behind them.
fn pad(bytes: &[u8], out: &mut [u8; 4096])
    ensures { out.new ≡ padded 4096 bytes.now }
{
    *out = [0; 4096];
    let count = bytes.len().min(4096);
    let (shown, _) = bytes.split_at(count);
    let (front, _) = out.split_at_mut(count);
    front.copy_from_slice(shown);
}

fn flag(is: bool) -> u32
    ensures { result ≡ flag is }
{
    if is { 1 } else { 0 }
}

fn side_number(side: Side) -> u32
    ensures { result ≡ side_number side }
{
    match side {
        Side::Left => 0,
        Side::Right => 1,
    }
}
