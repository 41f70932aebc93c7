ghost use Rattle.std.specs.Prelude.{◌≤◌, length};

use crate::same::same;
use ksi_imprint::{Bytes, NoMemory};
use ksi_ports::{
    Counts, Files, HostFiles, HostSink, LoadRefusal, MemFiles, MemSink, SaveRefusal, Sink,
    SinkFailed, SureFiles, SureSink,
};
use std::alloc::Global;
use std::io::Write;
use std::process::Abort;
use std::test::Fail;
use std::{fs, rt};

fn told(load: &Result<Bytes, LoadRefusal>) -> Result<&[u8], LoadRefusal> {
    match load {
        Ok(bytes) => Ok(bytes.as_slice()),
        Err(refusal) => Err(*refusal),
    }
}

fn load(
    rt: &impl Abort,
    alloc: Global,
    files: &mut impl Files,
    rows: &[(&str, usize, Result<&[u8], LoadRefusal>)],
) {
    for (name, most, want) in rows {
        let load = files.load(alloc, name, *most);
        same(rt, *name, told(&load), *want);
    }
}

fn save(
    rt: &impl Abort,
    alloc: Global,
    files: &mut impl Files,
    rows: &[(&str, &[u8], Result<(), SaveRefusal>)],
) {
    for (name, bytes, want) in rows {
        same(rt, *name, files.save(alloc, name, bytes), *want);
    }
}

/// The calls, the faults, the saves and the bytes taken.
fn counted(counts: &Counts) -> [u64; 4] {
    [counts.calls, counts.faults, counts.saves, counts.taken]
}

/// What is counted, and what is held of a file.
fn hold(rt: &impl Abort, files: &MemFiles, counts: [u64; 4], name: &str, bytes: Option<&[u8]>) {
    same(rt, "counts", counted(&files.counts()), counts);
    same(rt, name, files.bytes(name), bytes);
}

fn put<K: Sink>(rt: &impl Abort, out: &mut K, piece: &[u8], want: Result<(), SinkFailed>)
    requires { length piece.now ≤ K.free out.old }
{
    same(rt, piece.len(), out.put(piece), want);
}

fn held_twice(alloc: Global) -> Result<MemFiles, NoMemory> {
    let mut files = MemFiles::new(alloc, Vec::new(alloc));
    files.hold("a", b"old")?;
    files.hold("b", b"")?;
    files.hold("a", b"new")?;
    Ok(files)
}

#[test]
fn a_load_gives_what_is_held_up_to_its_limit(rt: HostRuntime) -> Result<(), Fail> {
    static LOADS: [(&str, usize, Result<&[u8], LoadRefusal>); 5] = [
        ("a", 4, Ok(b"new")),
        ("a", 3, Ok(b"new")),
        ("a", 2, Err(LoadRefusal::TooLong)),
        ("b", 0, Ok(b"")),
        ("c", 9, Err(LoadRefusal::Failed)),
    ];
    let mut files = held_twice(rt.alloc())?;
    load(&rt, rt.alloc(), &mut files, &LOADS);
    hold(&rt, &files, [5, 1, 0, 9], "c", None);
    Ok(())
}

/// The second, third and sixth calls fail.
fn three_fail(alloc: Global) -> Result<MemFiles, NoMemory> {
    let mut files = MemFiles::new(alloc, [1, 2, 5].to_vec(alloc)?);
    files.hold("a", b"one")?;
    Ok(files)
}

#[test]
fn listed_calls_fail_and_are_counted(rt: HostRuntime) -> Result<(), Fail> {
    static LOADS: [(&str, usize, Result<&[u8], LoadRefusal>); 2] = [
        ("a", 9, Ok(b"one")),
        ("a", 9, Err(LoadRefusal::Failed)),
    ];
    static SAVES: [(&str, &[u8], Result<(), SaveRefusal>); 4] = [
        ("c", b"three", Err(SaveRefusal::Failed)),
        ("b", b"one", Ok(())),
        ("b", b"two", Ok(())),
        ("b", b"four", Err(SaveRefusal::Failed)),
    ];
    let mut files = three_fail(rt.alloc())?;
    load(&rt, rt.alloc(), &mut files, &LOADS);
    save(&rt, rt.alloc(), &mut files, &SAVES);
    hold(&rt, &files, [6, 3, 4, 3], "b", Some(b"two"));
    hold(&rt, &files, [6, 3, 4, 3], "c", None);
    Ok(())
}

// Room for five bytes, of which the second and the fourth put fail, the latter after a byte.
fn two_are_cut(alloc: Global) -> Result<MemSink, NoMemory> {
    let mut out = MemSink::new(alloc, 5)?;
    out.cut(1, 0)?;
    out.cut(3, 1)?;
    Ok(out)
}

/// What is put into such a sink.
fn are_put(rt: &impl Abort, out: &mut MemSink) {
    static PUTS: [(&[u8], Result<(), SinkFailed>); 6] = [
        (b"ab", Ok(())),
        (b"c", Err(SinkFailed)),
        (b"cdef", Err(SinkFailed)),
        (b"cd", Err(SinkFailed)),
        (b"de", Ok(())),
        (b"", Ok(())),
    ];
    for (piece, want) in &PUTS {
        put(rt, out, piece, *want);
    }
}

fn are_written(rt: &impl Abort, out: &MemSink) {
    same(rt, "counts", [out.puts(), out.faults()], [6, 3]);
    same(rt, "written", out.written(), b"abcde");
}

#[test]
fn puts_append_but_for_those_cut_or_past_the_room(rt: HostRuntime) -> Result<(), Fail> {
    let mut out = two_are_cut(rt.alloc())?;
    are_put(&rt, &mut out);
    are_written(&rt, &out);
    Ok(())
}

fn read_as_empty(rt: &impl Abort, alloc: Global, files: &mut SureFiles) {
    static LOADS: [(&str, usize, Result<&[u8], LoadRefusal>); 3] = [
        ("a", 3, Ok(b"one")),
        ("a", 2, Err(LoadRefusal::TooLong)),
        ("b", 0, Ok(b"")),
    ];
    static SAVES: [(&str, &[u8], Result<(), SaveRefusal>); 1] = [("a", b"one", Ok(()))];
    save(rt, alloc, files, &SAVES);
    load(rt, alloc, files, &LOADS);
    same(rt, "a", files.bytes("a"), b"one");
    same(rt, "calls", files.counts().calls, 4);
}

#[test]
fn sure_files_read_as_empty_where_nothing_is_held(rt: HostRuntime) -> Result<(), Fail> {
    let mut files = SureFiles::new(rt.alloc());
    files.hold("a", b"old")?;
    read_as_empty(&rt, rt.alloc(), &mut files);
    Ok(())
}

fn takes_three(rt: &impl Abort, out: &mut SureSink)
    requires { 3 ≤ out.old.free }
{
    put(rt, out, b"abc", Ok(()));
    same(rt, "free", out.free(), 2);
    same(rt, "written", out.written(), b"abc");
}

#[test]
fn a_sure_sink_takes_what_it_has_room_for(rt: HostRuntime) -> Result<(), Fail> {
    let mut out = SureSink::new(rt.alloc(), 5)?;
    takes_three(&rt, &mut out);
    Ok(())
}

/// What the system's files answer to saves and then to loads, and what they count.
fn answer(
    rt: &(impl Abort + rt::Files),
    alloc: Global,
    saves: &[(&str, &[u8], Result<(), SaveRefusal>)],
    loads: &[(&str, usize, Result<&[u8], LoadRefusal>)],
    counts: [u64; 4],
) {
    let mut files = HostFiles::new(rt);
    save(rt, alloc, &mut files, saves);
    load(rt, alloc, &mut files, loads);
    same(rt, "counts", counted(&files.counts()), counts);
}

#[test]
fn the_system_saves_and_loads_up_to_the_limit(rt: HostRuntime) {
    const CONTENT: [u8; 5_000] = [7; 5_000];
    static SAVES: [(&str, &[u8], Result<(), SaveRefusal>); 3] = [
        ("ksi_ports_limit", &CONTENT, Ok(())),
        ("ksi_ports_saved", b"longer", Ok(())),
        ("ksi_ports_saved", b"by", Ok(())),
    ];
    static LOADS: [(&str, usize, Result<&[u8], LoadRefusal>); 4] = [
        ("ksi_ports_limit", 5_001, Ok(&CONTENT)),
        ("ksi_ports_limit", 5_000, Ok(&CONTENT)),
        ("ksi_ports_limit", 4_999, Err(LoadRefusal::TooLong)),
        ("ksi_ports_saved", 5_000, Ok(b"by")),
    ];
    answer(&rt, rt.alloc(), &SAVES, &LOADS, [7, 0, 3, 15_002]);
}

/// A folder is opened, and it is the read that fails.
#[test]
fn the_system_loads_no_removed_file_and_no_folder(rt: HostRuntime) -> Result<(), Fail> {
    static SAVES: [(&str, &[u8], Result<(), SaveRefusal>); 1] = [("ksi_ports_gone", b"by", Ok(()))];
    static LOADS: [(&str, usize, Result<&[u8], LoadRefusal>); 2] = [
        ("ksi_ports_gone", 5_000, Err(LoadRefusal::Failed)),
        (".", 5_000, Err(LoadRefusal::Failed)),
    ];
    answer(&rt, rt.alloc(), &SAVES, &[], [1, 0, 1, 0]);
    fs::remove_file(&rt, "ksi_ports_gone")?;
    answer(&rt, rt.alloc(), &[], &LOADS, [2, 2, 0, 0]);
    Ok(())
}

/// In a folder that is not there, and over a folder, nothing can be saved.
#[test]
fn the_system_saves_in_no_missing_folder_and_over_none(rt: HostRuntime) {
    static SAVES: [(&str, &[u8], Result<(), SaveRefusal>); 3] = [
        ("ksi_ports_no_folder/saved", b"by", Err(SaveRefusal::Failed)),
        (".", b"by", Err(SaveRefusal::Failed)),
        ("ksi_ports_behind", b"by", Ok(())),
    ];
    answer(&rt, rt.alloc(), &SAVES, &[], [3, 2, 3, 0]);
}

/// What is put into a sink over a writer.
fn puts_pass(rt: &impl Abort, out: &mut HostSink<impl Write>) {
    static PUTS: [(&[u8], Result<(), SinkFailed>); 3] = [
        (b"line ", Ok(())),
        (b"", Ok(())),
        (b"one", Ok(())),
    ];
    for (piece, want) in &PUTS {
        put(rt, out, piece, *want);
    }
    same(rt, "counts", [out.puts(), out.faults()], [3, 0]);
}

#[test]
fn the_system_writes(rt: HostRuntime) {
    let mut written = Vec::new(rt.alloc());
    puts_pass(&rt, &mut HostSink::new(&mut written));
    same(&rt, "written", written.as_slice(), b"line one");
}
