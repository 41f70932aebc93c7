use crate::same::same;
use ksi_imprint::{Bytes, Compress, HexFault, Imprint, ImprintFault, Sha, Tiny};
use std::process::Abort;
use std::test::Fail;

/// SHA-256 of `abc`, as FIPS 180-4 gives it.
const ABC: &str = "ba7816bf8f01cfea414140de5dae2223b00361a396177a9cb410ff61f20015ad";

/// The imprint of these bytes is written as these digits, and read from them.
fn is_hashed(rt: &impl Abort, message: &[u8], digits: &str) {
    let imprint = Sha::of(message);
    let mut written = [0; 64];
    imprint.write_hex(&mut written);
    same(rt, digits, written.as_slice(), digits.as_bytes());
    same(rt, digits, Imprint::from_hex(digits), Ok(imprint));
}

#[test]
fn the_vectors_of_the_standard(rt: HostRuntime) -> Result<(), Fail> {
    static ROWS: [(&[u8], &str); 3] = [
        (
            b"",
            "e3b0c44298fc1c149afbf4c8996fb92427ae41e4649b934ca495991b7852b855",
        ),
        (b"abc", ABC),
        (
            b"abcdbcdecdefdefgefghfghighijhijkijkljklmklmnlmnomnopnopq",
            "248d6a61d20638b8e5c026930c3e6039a33ce45964ff2167f6ecedd419db06c1",
        ),
    ];
    for (message, digits) in &ROWS {
        is_hashed(&rt, message, digits);
    }
    is_hashed(
        &rt,
        &vec![in rt.alloc(); b'a'; 1_000_000]?,
        "cdc76e5c9914fb9281a1c7e284d73e67f1809a48a497200e046d39ccc7112cd0",
    );
    Ok(())
}

#[test]
fn digits_of_either_case_and_the_first_that_is_none(rt: HostRuntime) {
    const CAPITALS: &str = "BA7816BF8F01CFEA414140DE5DAE2223B00361A396177A9CB410FF61F20015AD";
    static ROWS: [(&str, HexFault); 6] = [
        ("", HexFault::Length(0)),
        (
            "ba7816bf8f01cfea414140de5dae2223b00361a396177a9cb410ff61f20015a",
            HexFault::Length(63),
        ),
        (
            "ba7816bf8f01cfea414140de5dae2223b00361a396177a9cb410ff61f20015ad0",
            HexFault::Length(65),
        ),
        (
            "ga7816bf8f01cfea414140de5dae2223b00361a396177a9cb410ff61f20015ad",
            HexFault::Digit(0),
        ),
        (
            "ba7816bf8f01cfea414140de5dae2223:00361a396177a9cb410ff61f20015aG",
            HexFault::Digit(32),
        ),
        (
            "ba7816bf8f01cfea414140de5dae2223b00361a396177a9cb410ff61f20015a/",
            HexFault::Digit(63),
        ),
    ];
    for (text, fault) in &ROWS {
        same(&rt, *text, Imprint::from_hex(text), Err(*fault));
    }
    same(
        &rt,
        CAPITALS,
        Imprint::from_hex(CAPITALS),
        Ok(Sha::of(b"abc")),
    );
}

#[test]
fn imprints_are_read_from_their_bytes(rt: HostRuntime) {
    static ROWS: [(&[u8], ImprintFault); 4] = [
        (&[], ImprintFault::Length(0)),
        (&[1], ImprintFault::Length(1)),
        (&[1; 34], ImprintFault::Length(34)),
        (&[5], ImprintFault::Algorithm(5)),
    ];
    for (bytes, fault) in &ROWS {
        same(&rt, bytes.len(), Imprint::read(bytes), Err(*fault));
    }
    let abc = Sha::of(b"abc");
    same(&rt, "abc", Imprint::read(abc.bytes()), Ok(abc));
    let order = Imprint::ZERO.is_zero() && !abc.is_zero() && Imprint::ZERO < abc;
    same(&rt, "order", order, true);
}

#[test]
fn bytes_are_copied_and_handed_over(rt: HostRuntime) -> Result<(), Fail> {
    let bytes = Bytes::copy_of(rt.alloc(), b"abc")?;
    same(&rt, "copy", bytes.as_slice(), b"abc");
    let again = Bytes::from_vec(bytes.into_vec());
    same(&rt, "again", again.as_slice(), b"abc");
    Ok(())
}

#[test]
fn parts_are_joined_behind_one_another(rt: HostRuntime) {
    let sum = Tiny::of(b"\x05\x07");
    same(&rt, "join", Sha::join(b"", b"ab", b'c'), Sha::of(b"abc"));
    same(&rt, "sum", Tiny::join(b"\x06", b"\x05", 1), sum);
    same(&rt, "12", sum.bytes()[1], 12);
    same(&rt, "510", Tiny::of(&[0xff; 2]).bytes()[1], 0xfe);
}
