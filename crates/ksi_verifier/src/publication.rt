// The checks of what was published.
ghost use Rattle.std.specs.Prelude.{◌≡◌};
ghost use Rattle.ksi_verifier.specs.Verdict.{published_checks, same_publication, same_record};

use crate::difference::RecordDifference;
use crate::lent::RecordPart;
use crate::refusal::Refusal;
use ksi_imprint::Imprint;
use ksi_publications::Published;

/// V12, V13 and V14: what was published for a time is the root.
pub(crate) fn check_published<P: Published>(
    published: &Option<RecordPart>,
    publications: &P,
    time: u64,
    root: Imprint,
) -> Result<(), Refusal>
    ensures { result ≡ published_checks published.now (P.pairs publications.now) time root }
{
    match check_record(published, time, root) {
        Ok(()) => check_publication(publications.find(time), time, root),
        Err(refusal) => Err(refusal),
    }
}

fn check_record(published: &Option<RecordPart>, time: u64, root: Imprint) -> Result<(), Refusal>
    ensures { result ≡ same_record published.now time root }
{
    let published = match published {
        None => return Ok(()),
        Some(published) => published,
    };
    if published.time != time {
        return Err(Refusal::RecordDiffers(RecordDifference::Time {
            record: published.time,
            publication: time,
        }));
    }
    if published.hash != root {
        return Err(Refusal::RecordDiffers(RecordDifference::Hash {
            record: published.hash,
            computed: root,
        }));
    }
    Ok(())
}

fn check_publication(found: Option<Imprint>, time: u64, root: Imprint) -> Result<(), Refusal>
    ensures { result ≡ same_publication found time root }
{
    match found {
        None => Err(Refusal::NoPublication { time }),
        Some(hash) => {
            if hash == root {
                Ok(())
            } else {
                Err(Refusal::PublicationDiffers {
                    time,
                    in_file: hash,
                    computed: root,
                })
            }
        }
    }
}
