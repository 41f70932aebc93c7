// The command `verify`.
ghost use Rattle.std.specs.Prelude.{◌≡◌};
ghost use Rattle.ksi_imprint.specs.Imprints.{imprint_of};
ghost use Rattle.ksi_publications.specs.Lent.{lent_pairs};
ghost use Rattle.ksi_signature.specs.Seen.{seen};
ghost use Rattle.ksi_verifier.specs.Verdict.{verdict};
ghost use Rattle.ksi_top.specs.Promised.{Performed};
ghost use Rattle.ksi_top.specs.Verify.{judged, verify_command, verify_over};

use crate::loading::{FILE_LIMIT, SIGNATURE_LIMIT, load_file};
use crate::reading::{view_publications, view_signature};
use crate::report::{Halt, Report};
use crate::status::Status;
use ksi_imprint::{Imprint, Sha};
use ksi_lines::Word::{Number, Text};
use ksi_lines::{print, refusal_line};
use ksi_ports::Files;
use ksi_publications::PublicationsView;
use ksi_signature::SignatureView;
use ksi_verifier::{Verdict, verify_lent};
use std::alloc::Global;

/// Loads the signature, then the publications, and checks the one against the hash and the other.
pub(crate) fn verify<F: Files>(
    alloc: Global,
    files: &mut F,
    signature: &str,
    hash: &Imprint,
    publications: &str,
) -> Result<Report, Halt>
    ensures { Performed F.Files (verify_command signature.now hash.now publications.now) files.old files.new result }
{
    let bytes = load_file(alloc, files, SIGNATURE_LIMIT, 1, signature)?;
    let signature = view_signature(1, bytes.as_slice())?;
    verify_over(alloc, files, &signature, hash, publications)
}

/// Loads the publications, and checks the signature against the hash and them. They are read where their bytes lie.
fn verify_over<F: Files>(
    alloc: Global,
    files: &mut F,
    signature: &SignatureView<'_>,
    hash: &Imprint,
    publications: &str,
) -> Result<Report, Halt>
    ensures { Performed F.Files (verify_over (seen signature.now) hash.now publications.now) files.old files.new result }
{
    let bytes = load_file(alloc, files, FILE_LIMIT, 3, publications)?;
    let publications = view_publications(3, bytes.as_slice())?;
    Ok(judge(signature, hash, &publications))
}

fn judge(
    signature: &SignatureView<'_>,
    hash: &Imprint,
    publications: &PublicationsView<'_>,
) -> Report
    ensures { result ≡ judged (verdict imprint_of (seen signature.now) hash.now (lent_pairs publications.now)) }
{
    match verify_lent::<Sha, PublicationsView<'_>>(signature, hash, publications) {
        Verdict::Accepted(second) => {
            let line = print(Text("accepted"), &[], &[Number(second)]);
            Report::new(Status::Done, line)
        }
        Verdict::Refused(refusal) => Report::new(Status::Refused, refusal_line(&refusal)),
    }
}
