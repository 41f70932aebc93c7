// The command `checkline`.
ghost use Rattle.std.specs.Prelude.{◌≡◌};
ghost use Rattle.ksi_imprint.specs.Imprints.{imprint_of};
ghost use Rattle.ksi_publications.specs.Lent.{lent_pairs};
ghost use Rattle.ksi_signature.specs.Seen.{seen};
ghost use Rattle.ksi_verifier.specs.Verdict.{verdict};
ghost use Rattle.ksi_top.specs.CheckLine.{checkline_beside, checkline_by, checkline_command, checkline_over, line_checked, line_judged};
ghost use Rattle.ksi_top.specs.Promised.{Performed};

use crate::loading::{FILE_LIMIT, SIGNATURE_LIMIT, load, load_file};
use crate::reading::{view_publications, view_signature};
use crate::report::{Halt, Report};
use crate::status::Status;
use ksi_imprint::{Imprint, Sha};
use ksi_lines::Word::{Number, Text};
use ksi_lines::{level_line, print, refusal_line};
use ksi_logblock::{LONGEST_LINE, LineProof, root_of};
use ksi_ports::Files;
use ksi_publications::PublicationsView;
use ksi_signature::SignatureView;
use ksi_verifier::{Verdict, verify_lent};
use std::alloc::Global;

/// Loads the signature, then the publications, then the line, then the proof, and checks the signature of the root that the
/// line and the proof lead to.
pub(crate) fn checkline<F: Files>(
    alloc: Global,
    files: &mut F,
    signature: &str,
    publications: &str,
    line: &str,
    proof: &str,
) -> Result<Report, Halt>
    ensures { Performed F.Files (checkline_command signature.now publications.now line.now proof.now) files.old files.new result }
{
    let bytes = load_file(alloc, files, SIGNATURE_LIMIT, 1, signature)?;
    let signature = view_signature(1, bytes.as_slice())?;
    checkline_over(alloc, files, &signature, publications, line, proof)
}

/// Loads the publications, then the line, then the proof. The publications are read where their bytes lie.
fn checkline_over<F: Files>(
    alloc: Global,
    files: &mut F,
    signature: &SignatureView<'_>,
    publications: &str,
    line: &str,
    proof: &str,
) -> Result<Report, Halt>
    ensures { Performed F.Files (checkline_over (seen signature.now) publications.now line.now proof.now) files.old files.new result }
{
    let bytes = load_file(alloc, files, FILE_LIMIT, 2, publications)?;
    let publications = view_publications(2, bytes.as_slice())?;
    checkline_beside(alloc, files, signature, &publications, line, proof)
}

/// Loads the line, then the proof.
fn checkline_beside<F: Files>(
    alloc: Global,
    files: &mut F,
    signature: &SignatureView<'_>,
    publications: &PublicationsView<'_>,
    line: &str,
    proof: &str,
) -> Result<Report, Halt>
    ensures { Performed F.Files (checkline_beside (seen signature.now) (lent_pairs publications.now) line.now proof.now) files.old files.new result }
{
    let line = load_file(alloc, files, LONGEST_LINE, 3, line)?;
    checkline_by(
        alloc,
        files,
        signature,
        publications,
        line.as_slice(),
        proof,
    )
}

/// Loads the proof, and checks the signature.
fn checkline_by<F: Files>(
    alloc: Global,
    files: &mut F,
    signature: &SignatureView<'_>,
    publications: &PublicationsView<'_>,
    line: &[u8],
    proof: &str,
) -> Result<Report, Halt>
    ensures { Performed F.Files (checkline_by (seen signature.now) (lent_pairs publications.now) line.now proof.now) files.old files.new result }
{
    let proof = load::<LineProof, F>(alloc, files, 4, proof)?;
    Ok(line_checked(signature, publications, line, &proof))
}

fn line_checked(
    signature: &SignatureView<'_>,
    publications: &PublicationsView<'_>,
    line: &[u8],
    proof: &LineProof,
) -> Report
    ensures { result ≡ line_checked (seen signature.now) (lent_pairs publications.now) line.now proof.now }
{
    match root_of::<Sha>(line, proof) {
        Ok(root) => judge(signature, &root, publications),
        Err(fault) => Report::new(Status::Refused, level_line(fault)),
    }
}

fn judge(
    signature: &SignatureView<'_>,
    root: &Imprint,
    publications: &PublicationsView<'_>,
) -> Report
    ensures { result ≡ line_judged (verdict imprint_of (seen signature.now) root.now (lent_pairs publications.now)) }
{
    match verify_lent::<Sha, PublicationsView<'_>>(signature, root, publications) {
        Verdict::Accepted(second) => {
            let line = print(Text("line"), &[Text("accepted")], &[Number(second)]);
            Report::new(Status::Done, line)
        }
        Verdict::Refused(refusal) => Report::new(Status::Refused, refusal_line(&refusal)),
    }
}
