// The line of what an audit answers.
ghost use Rattle.std.specs.Prelude.{◌≡◌, ◌≤◌, ◌+◌, ◌++◌, IfOk, length};
ghost use Rattle.arrayvec.specs.ArrayString.{array_string_len};
ghost use Rattle.ksi_auditor.specs.Shown.{IsShort};
ghost use Rattle.ksi_lines.specs.Answers.{audit_line, before_start_line, undecided_line, inside_line, clash_line, letter, letters, way_text};

use crate::line::Line;
use crate::printing::Word::{Digest, Number, Text};
use crate::printing::print;
use crate::refusals::refusal_line;
use arrayvec::ArrayString;
use ksi_auditor::Audit;
use ksi_imprint::NoMemory;
use ksi_split::{Side, Way};
use std::alloc::Global;

/// The line of an audit's answer.
///
/// # Errors
/// `NoMemory` where the line of a clash finds none.
pub fn audit_line(alloc: Global, audit: &Audit) -> Result<Line, NoMemory>
    requires { IsShort audit.now }
    ensures line { IfOk result (λ line. line ≡ audit_line audit.now) }
{
    match audit {
        Audit::Inside(second, way) => Ok(inside_line(*second, way)),
        Audit::Beneath(second, item, links) => {
            let values = [Number(*second), Number(*item), Number(*links)];
            Ok(print(Text("beneath"), &[], &values))
        }
        Audit::Clash(clash) => clash_line(alloc, clash.one.as_slice(), clash.two.as_slice()),
        Audit::NotAccepted(refusal) => Ok(refusal_line(refusal)),
        Audit::BeforeStart(publication) => Ok(before_start_line(*publication)),
        Audit::Undecided(second) => Ok(undecided_line(*second)),
        Audit::NotDecided(publication, given, kept) => {
            let values = [Number(*publication), Digest(given), Digest(kept)];
            Ok(print(Text("not"), &[Text("decided")], &values))
        }
    }
}

/// A journal's start is after the second.
pub fn before_start_line(second: u64) -> Line
    ensures { result ≡ before_start_line second }
{
    print(Text("before"), &[Text("start")], &[Number(second)])
}

/// The first second that a journal does not keep.
pub fn undecided_line(second: u64) -> Line
    ensures { result ≡ undecided_line second }
{
    print(Text("undecided"), &[], &[Number(second)])
}

fn inside_line(second: u64, way: &Way) -> Line
    ensures { result ≡ inside_line second way.now }
{
    let way = way_text(way);
    print(Text("inside"), &[], &[Number(second), Text(way.as_str())])
}

fn way_text(way: &Way) -> ArrayString<63>
    ensures { result.bytes ≡ way_text way.now }
{
    let sides = way.as_slice();
    let mut text = ArrayString::new();
    if sides.is_empty() {
        text.push_str("-");
    } else {
        push_letters(&mut text, sides);
    }
    text
}

/// A letter for each side.
fn push_letters(text: &mut ArrayString<63>, sides: &[Side])
    requires { array_string_len text.old + length sides.now ≤ 63 }
    ensures { text.new.bytes ≡ text.old.bytes ++ letters sides.now }
{
    for side in sides {
        text.push_str(letter(*side));
    }
}

fn letter(side: Side) -> &'static str
    ensures letter { result.now ≡ letter side }
    ensures one { length result.now ≡ 1 }
{
    match side {
        Side::Left => "L",
        Side::Right => "R",
    }
}

/// Two strings in hex, which are so short that a line holds both.
#[tactic(auto, using(crate::proofs::LineLengths::hex_length))]
pub(crate) fn clash_line(alloc: Global, one: &[u8], two: &[u8]) -> Result<Line, NoMemory>
    requires one { length one.now ≤ 8000 }
    requires two { length two.now ≤ 8000 }
    ensures { IfOk result (λ line. line ≡ clash_line one.now two.now) }
{
    let one = hex::encode(alloc, one)?;
    let two = hex::encode(alloc, two)?;
    let mut text = Vec::from_slice(alloc, b"clash ")?;
    text.extend_from_slice(one.as_bytes())?;
    text.extend_from_slice(b" ")?;
    text.extend_from_slice(two.as_bytes())?;
    text.extend_from_slice(b"\n")?;
    Ok(Line::long(text))
}
