// The line of a check that fails: its code and its values.
ghost use Rattle.std.specs.Prelude.{◌≡◌, ◌≤◌, ◌∷◌, map, codes, length};
ghost use Rattle.ksi_lines.specs.Lines.{refused_line, refused_for, shape_words, difference_words};
ghost use Rattle.ksi_lines.specs.Printed.{word_text, room};

use crate::line::Line;
use crate::printing::Word::{self, Digest, Number, Optional, Text};
use crate::printing::print;
use ksi_split::ShapeFault;
use ksi_verifier::{RecordDifference, Refusal};

/// The line of a check that fails.
pub fn refusal_line(refusal: &Refusal) -> Line
    ensures { result ≡ refused_line refusal.now }
{
    match refusal {
        Refusal::WrongHash {
            in_signature,
            given,
        } => { refused("V1", &[Digest(in_signature), Digest(given)]) }
        Refusal::IndexOrder {
            chain,
            place,
            lower,
            higher,
        } => {
            let parts = [Optional(*lower), Optional(*higher)];
            refused("V2", &[Number(*chain), Number(*place), parts[0], parts[1]])
        }
        Refusal::IndexShape { chain, part, shape } => {
            refused("V3", &[Number(*chain), Number(*part), Number(*shape)])
        }
        Refusal::Level { chain, link, level } => {
            refused(
                "V4",
                &[Number(*chain), Number(*link), Number(*level as u64)],
            )
        }
        Refusal::ChainBreak {
            chain,
            computed,
            stated,
        } => { refused("V5", &[Number(*chain), Digest(computed), Digest(stated)]) }
        Refusal::AggregationTimes { chain, first, this } => {
            refused("V6", &[Number(*chain), Number(*first), Number(*this)])
        }
        Refusal::BareMetadata { chain, link } => {
            refused("V15", &[Number(*chain), Number(*link)])
        }
        Refusal::NoCalendar => refused("V7", &[]),
        Refusal::CalendarInput { computed, stated } => {
            refused("V8", &[Digest(computed), Digest(stated)])
        }
        Refusal::MissedSecond => refused("V9", &[]),
        Refusal::CalendarShape(fault) => shape_line(*fault),
        Refusal::TimeField { field, second } => {
            refused("V11", &[Number(*field), Number(*second)])
        }
        Refusal::RecordDiffers(difference) => difference_line(difference),
        Refusal::NoPublication { time } => refused("V13", &[Number(*time)]),
        Refusal::PublicationDiffers {
            time,
            in_file,
            computed,
        } => { refused("V14", &[Number(*time), Digest(in_file), Digest(computed)]) }
    }
}

fn shape_line(fault: ShapeFault) -> Line
    ensures { result ≡ refused_for (codes "V10" ∷ shape_words fault) }
{
    match fault {
        ShapeFault::TooMany(place) => refused("V10", &[Text("many"), Number(place as u64)]),
        ShapeFault::TooFew(rest) => refused("V10", &[Text("few"), Number(rest)]),
    }
}

fn difference_line(difference: &RecordDifference) -> Line
    ensures { result ≡ refused_for (codes "V12" ∷ difference_words difference.now) }
{
    match difference {
        RecordDifference::Time {
            record,
            publication,
        } => {
            refused(
                "V12",
                &[Text("time"), Number(*record), Number(*publication)],
            )
        }
        RecordDifference::Hash { record, computed } => {
            refused("V12", &[Text("hash"), Digest(record), Digest(computed)])
        }
    }
}

/// A refusal: its code and its values.
pub(crate) fn refused(code: &str, values: &[Word<'_>]) -> Line
    requires code { length code.now ≤ 3 }
    requires values { room values.now ≤ 200 }
    ensures { result ≡ refused_for (code.now ∷ map word_text values.now) }
{
    print(Text("refused"), &[Text(code)], values)
}
