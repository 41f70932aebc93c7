// Every command with each of its calls failing in turn.
use crate::mirrors::ONE;
use crate::same::same;
use crate::script::{first, name_of, play, sides, words};
use crate::whole_paths::REPLAYED;
use ksi_ports::{MemFiles, MemSink, SureFiles, SureSink};
use ksi_top::{ksi, sure_run};
use std::alloc::Global;
use std::process::Abort;
use std::test::Fail;

// A command, how often it calls on the files, how many bytes it saves under "o", and how the line that it puts begins.
const ROWS: &str = "replay f o = 2 766 eve
sign j 0 o = 2 615 sig
publish j o = 2 68 pub
extend j s T o = 3 662 ext
verify s A p = 2 - acc
audit j s A p = 3 - ins
make 7 o = 1 233840 mad
drill 7 = 0 - sec
migrate j o = 2 766 mig
front j T T o = 2 20 fro
compare j j c = 3 - equ
block g Z = 1 - blo
line g Z 0 o = 2 80 lin
checkline s p l q = 4 - ref
locate g Z l q = 3 - in 0
merge m m o = 3 108 mer
whole m o = 2 98 who
inspect n = 1 - cor
mirror f 0 o = 2 108 mir
node f 0 o = 2 222 nod";

// The files that some of them read beside those of a whole path: a log and a line, and a node file without facts.
const MADE: &str = "hold g 61 0a 62 0a
hold l 61
hold n 4b53494e4f444531 00 01 000000006553f100 00
front j T T c = Done front T T 0
line g Z 0 q = Done line 0";

// The files of a whole path, of which the call of this number fails.
fn failing_at(alloc: Global, whole: &MemFiles, call: u64) -> Result<MemFiles, Fail> {
    let mut files = MemFiles::new(alloc, vec![in alloc; call]?);
    for name in "f j s p c g l q m n".split(' ') {
        files.hold(name, whole.bytes(name).unwrap_or(b""))?;
    }
    Ok(files)
}

// What came of a run: calls and failed calls, puts and failed puts; the size of the file that was saved; and the bytes put.
type Told<'a> = ([u64; 4], Option<usize>, &'a [u8]);

// A run whose put fails after three bytes ends with a fault, and this came of it.
fn fails(
    rt: &impl Abort,
    alloc: Global,
    files: &mut MemFiles,
    line: &str,
    want: Told<'_>,
) -> Result<(), Fail> {
    let words = words(alloc, line)?;
    let mut out = MemSink::new(alloc, 32_767)?;
    out.cut(0, 3)?;
    same(
        rt,
        line,
        name_of(ksi(alloc, &words, files, &mut out)),
        "Fault",
    );
    let size = files.bytes("o").map(|bytes| bytes.len());
    let counts = files.counts();
    let told = [counts.calls, counts.faults, out.puts(), out.faults()];
    same(rt, line, (told, size, out.written()), want);
    Ok(())
}

// The same, where the call of this number fails.
fn fails_at(
    rt: &impl Abort,
    alloc: Global,
    whole: &MemFiles,
    call: u64,
    line: &str,
    want: Told<'_>,
) -> Result<(), Fail> {
    let mut files = failing_at(alloc, whole, call)?;
    fails(rt, alloc, &mut files, line, want)
}

// Each call on the files fails, and nothing is saved or put; then the put fails, and the file stands.
fn each_call_fails(
    rt: &impl Abort,
    alloc: Global,
    whole: &MemFiles,
    row: &str,
) -> Result<(), Fail> {
    let (line, rest) = sides(row);
    let (calls, rest) = first(rest);
    let (size, put) = first(rest);
    let calls = calls.parse::<u64>()?;
    for call in 0..calls {
        fails_at(
            rt,
            alloc,
            whole,
            call,
            line,
            ([call + 1, 1, 0, 0], None, b""),
        )?;
    }
    let front = put.as_bytes().get(..3).unwrap_or(b"");
    let want = ([calls, 0, 1, 1], size.parse().ok(), front);
    fails_at(rt, alloc, whole, calls, line, want)
}

#[test]
fn each_failing_call_ends_the_run(rt: HostRuntime) -> Result<(), Fail> {
    let mut whole = MemFiles::new(rt.alloc(), Vec::new(rt.alloc()));
    for script in [REPLAYED, ONE, MADE] {
        play(&rt, rt.alloc(), &mut whole, script)?;
    }
    for row in ROWS.lines() {
        each_call_fails(&rt, rt.alloc(), &whole, row)?;
    }
    Ok(())
}

// Each command over files that hold nothing, and how it ends.
const SURE: &str = "replay s j = Malformed
sign j 0 o = Malformed
publish j o = Malformed
extend j s 5 o = Malformed
verify s A p = Malformed
audit j s A p = Malformed
make 7 m = Done
drill 7 = Done
migrate j o = Malformed
front j 5 6 o = Malformed
compare j k c = Malformed
block g Z = Refused
line g Z 0 o = Refused
checkline s p l q = Malformed
locate g Z l q = Malformed
merge m n o = Malformed
whole m j = Malformed
inspect n = Malformed
mirror s 0 j = Malformed
node s 0 j = Malformed";

// A row ends as it says.
fn ends(rt: &impl Abort, alloc: Global, files: &mut SureFiles, row: &str) -> Result<(), Fail> {
    let (line, want) = sides(row);
    let words = words(alloc, line)?;
    let mut out = SureSink::new(alloc, 32_767)?;
    same(
        rt,
        row,
        name_of(sure_run(alloc, &words, files, &mut out)),
        want,
    );
    Ok(())
}

#[test]
fn over_files_that_do_not_fail_no_run_does(rt: HostRuntime) -> Result<(), Fail> {
    let mut files = SureFiles::new(rt.alloc());
    for row in SURE.lines() {
        ends(&rt, rt.alloc(), &mut files, row)?;
    }
    Ok(())
}
