// Rows of text: a verb over a number or a schedule's text, and behind an equals sign what comes of it.
use crate::same::same;
use crate::script::{first, sides};
use crate::{decided, drills, generated_texts, moments, replays};
use std::alloc::Global;
use std::fmt::Debug;
use std::process::Abort;
use std::test::Fail;

/// What a verb comes to over a number, or over the text of a name and behind it the moments of mirrors.
fn come_of(alloc: Global, verb: &str, rest: &str) -> Result<String, Fail> {
    let (name, moments) = first(rest);
    match verb {
        "drill" => shown(alloc, &drills::drilled(alloc, name.parse()?)?),
        "decided" => shown(alloc, &decided::counted(alloc, name.parse()?)),
        "publish" => shown(alloc, &generated_texts::published(alloc, name.parse()?)?),
        "journal" => shown(alloc, &replays::counts(alloc, name)),
        "voters" => shown(alloc, &replays::is_with_voters(alloc, name)),
        _ => shown(alloc, &moments::told(alloc, name, moments)),
    }
}

/// A value as `Debug` prints it.
fn shown<T: Debug>(alloc: Global, value: &T) -> Result<String, Fail> {
    Ok(format!(in alloc; "{value:?}")?)
}

/// In each row the verb comes to what stands behind the equals sign.
pub(crate) fn are_so(rt: &impl Abort, alloc: Global, rows: &str) -> Result<(), Fail> {
    for row in rows.lines() {
        let (asked, want) = sides(row);
        let (verb, rest) = first(asked);
        same(rt, row, come_of(alloc, verb, rest)?.as_str(), want);
    }
    Ok(())
}
