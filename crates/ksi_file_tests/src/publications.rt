// Publications in words: a second, a colon and the imprint that is published of it, with commas between.
use crate::imprints::imprint;
use ksi_imprint::Imprint;
use ksi_publications::Publications;
use std::alloc::Global;
use std::test::Fail;

fn pair(text: &str) -> Result<(u64, Imprint), Fail> {
    let (time, word) = text.split_once(':').unwrap_or((text, ""));
    Ok((time.parse()?, imprint(word)?))
}

/// Publications by their times and roots.
pub(crate) fn listed(alloc: Global, text: &str) -> Result<Publications, Fail> {
    let mut pairs = Vec::new(alloc);
    for part in text.split_terminator(',') {
        pairs.push(pair(part)?)?;
    }
    Ok(Publications::from_vec(pairs))
}
