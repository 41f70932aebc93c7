ghost use Rattle.std.specs.Prelude.{◌≡◌, ◌↔◌};
ghost use Rattle.ksi_signature.specs.Reading.{signature_at};
ghost use Rattle.ksi_signature.specs.Seen.{seen};
ghost use Rattle.ksi_publications.specs.Reading.{publications_at};
ghost use Rattle.ksi_verifier.specs.declared.files_verdict.FilesVerdict.TheVariants as files;
ghost use Rattle.ksi_verifier.specs.declared.proved.Proved as declared;
ghost use Rattle.ksi_verifier.specs.Files.{IsVerified, files_verdict, of_checked, over_publications};

use crate::files_verdict::FilesVerdict;
use crate::laws::proved;
use crate::lent_checking::check_lent;
use crate::proved::Proved;
use crate::refusal::Refusal;
use ksi_imprint::{Compress, Imprint};
use ksi_publications::PublicationsView;
use ksi_publications::laws::publications_are_read;
use ksi_signature::laws::signature_is_read;
use ksi_signature::{SignatureView, view};

/// Reads a signature file and then a publications file, and checks the one for a hash against the other. No memory is taken.
pub fn verify_files<C: Compress>(
    signature: &[u8],
    hash: &Imprint,
    publications: &[u8],
) -> FilesVerdict
    ensures value { result ≡ files_verdict C.image (signature_at signature.now) (publications_at publications.now) hash.now }
    ensures accepted { (proved : declared.Proved) → (result ≡ files.Accepted proved) ↔
        IsVerified C.image signature.now hash.now publications.now proved }
{
    proved();
    signature_is_read();
    publications_are_read();
    verdict_of_files::<C>(signature, hash, publications)
}

fn verdict_of_files<C: Compress>(
    signature: &[u8],
    hash: &Imprint,
    publications: &[u8],
) -> FilesVerdict
    ensures { result ≡ files_verdict C.image (signature_at signature.now) (publications_at publications.now) hash.now }
{
    signature_is_read();
    match view(signature) {
        Ok(signature) => verdict_over::<C>(&signature, hash, publications),
        Err(fault) => FilesVerdict::NotSignature(fault),
    }
}

fn verdict_over<C: Compress>(
    signature: &SignatureView<'_>,
    hash: &Imprint,
    publications: &[u8],
) -> FilesVerdict
    ensures { result ≡ over_publications C.image (seen signature.now) (publications_at publications.now) hash.now }
{
    publications_are_read();
    match PublicationsView::of(publications) {
        Ok(publications) => of_checked(check_lent::<C, PublicationsView<'_>>(
            signature,
            hash,
            &publications,
        )),
        Err(fault) => FilesVerdict::NotPublications(fault),
    }
}

fn of_checked(checked: Result<Proved, Refusal>) -> FilesVerdict
    ensures { result ≡ of_checked checked }
{
    match checked {
        Ok(proved) => FilesVerdict::Accepted(proved),
        Err(refusal) => FilesVerdict::Refused(refusal),
    }
}
