// Rows of text: what is done over files, and behind an equals sign what comes of it.
use crate::same::same_text;
use crate::text::sides;
use crate::{auditing, extending, over_files, showing, verifying};
use ksi_imprint::{Sha, Tiny};
use std::alloc::Global;
use std::process::Abort;
use std::test::Fail;

/// What is done in each row comes to what stands behind its equals sign.
pub(crate) fn are_so(rt: &impl Abort, alloc: Global, rows: &str) -> Result<(), Fail> {
    for row in rows.lines() {
        let (done, want) = sides(row);
        same_text(rt, row, told(alloc, done)?.as_str(), want);
    }
    Ok(())
}

/// What comes of a verb over files, which stand behind it with semicolons between.
fn told(alloc: Global, done: &str) -> Result<String, Fail> {
    let (verb, files) = done.split_once(' ').unwrap_or((done, ""));
    match verb {
        "verify" => verifying::verified(alloc, files),
        "aggregate" => verifying::aggregated(alloc, files),
        "bytes" => verifying::checked(alloc, files),
        "files" => over_files::checked(alloc, files),
        "step" => over_files::stepped(alloc, files),
        "audit" => auditing::audited::<Tiny>(alloc, files),
        "sha-audit" => auditing::audited::<Sha>(alloc, files),
        "date" => showing::dated(alloc, files),
        "quoted" => showing::quoted(alloc, files),
        "named" => showing::named(alloc, files),
        verb => extending::extended(alloc, verb, files),
    }
}
