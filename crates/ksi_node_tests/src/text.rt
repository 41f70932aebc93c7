//! Texts of words. A word may be a name, which stands for digits.
use itoa::Buffer;
use ksi_imprint::Imprint;
use std::alloc::Global;

/// T is the first second of each plan. A and B are the digests of no bytes and of `abc`, Z has zero bytes, and Z8 is the root
/// of 256 of those. AB is the join of A and B one level up and A-B the one three levels up, and ABA, AA, AAAA and AAAAA are
/// the trees of such items. A.al is the join of A with m.al, the metadata of the name `al`; Z is short for `Z.9_-x` there,
/// and a for 64 letters. What begins with a star is the root of the calendar to the second of this root, or of one behind
/// missed ones. All were computed by another implementation.
const NAMES: &str = "T 1700000000
T+1 1700000001
T+2 1700000002
A e3b0c44298fc1c149afbf4c8996fb92427ae41e4649b934ca495991b7852b855
B ba7816bf8f01cfea414140de5dae2223b00361a396177a9cb410ff61f20015ad
Z 0000000000000000000000000000000000000000000000000000000000000000
AB ebc92d76a3c945906620f4b6283e127d65881c8a9584e1b6fcd65e55a52332ca
A.bob 51494ba900a77a274cab9a9723619053037ba97c59c8d7d0c0ce7633e73d6b48
A.al 28409e5749feb5354f8be45dcfb3bcba6ab981dbe440fbfc21a7e27ed8c94f65
A.al.bob 382ab0290c90bbf05542b73e3b51381c1ad8e0ca6b01f8ac147b90c92ceaf688
A.Z 8f7ea92ec338030bc1712ff632abab02054ec52729951386fe1a9418726b3098
A.Z.al d7d27904388f2ea25d451ca1bc9450a015408aa64018817db25773269b51d0d3
A.Z.al.bob 6c2265857e26cee93d0cfda1f7e2a53c09b23fee1052486f8160c32b7c83e81d
Z8 45470adcfb1fd2672fd1eed61be90547130e76c1fd50fa980bf645fc75fb5d34
*ZZZ 207d8b3f3c0135c34079d9c9c5463b3362a7505b85716dd7f963d806878169ad
*ZA 0d45b5790cbf9961331654895dbafbe814fa194ba6c83a8bacbfb0f8f101a232
*A 570737a592f024019e838977a595140c41a115724cadca09b01a769fde3a85d3
*AB 009b50e83e9eb3740402714c2501fd9b889eafbca86c946b7180ab0eaa2cf26c
*A.bob 8670c806f62ff2dd7f2df09ace87c2cfdfc3a85bf5efed3a1f8e063d041f7d78
*A.al.bob 9b36d7e60154b8f7335950c30650368111423b4ea52e8f496427fe5c94d37e9e
*A.Z.al.bob 589197db7a90919e89396efb46fdfff45ebf0dcfa5301336cf2e9db85e5aa857
ABA 1c393326ed8f3a9a794d30282bfecb03e191106ae506453a122569964ff4409a
B.al d24f2ced790e6fb51aa72f46fb2b10fb818f4d420553d04f447037fa6c89b06d
AB.al d292d6c6bf00e7f04bcd4a95902622cb5010bf7b9cac9f5f69dd744bb6e13457
A.a ea1eeac7ce476970c136dd5b5133facde872ad3cbe11c5165eeaa80003b086c8
AA a6155a8dfd1f71768b6aabb87e81a2337bc8abcb0f4bfb2a773c3517c1316c9e
AAAA 69e0d9b471df0790e060ae4a58eecc17b5f14fa5a177bfb0927d09814e58d302
AAAAA fb055bb3a05f1bba5198ee0fe7fcaa0ce63209961358e8dad1688401980930d1
A-B 261b0c00d64f808c93dd0b55a928aba9713811bca325adec7887067a01b019d4
m.a 7e010101416161616161616161616161616161616161616161616161616161616161616161616161616161616161616161616161616161616161616161616161616161616100
m.bob 7e0201010104626f6200
m.al 7e01010103616c00
m.Z 7e010101075a2e395f2d7800";

/// What a name stands for, or the name of what it stands for; any other word stands for itself.
pub(crate) fn meant(word: &str) -> &str {
    for line in NAMES.lines() {
        if let Some((name, digits)) = line.split_once(" ") {
            if name == word {
                return digits;
            }
            if digits == word {
                return name;
            }
        }
    }
    word
}

/// A text that grows by words. Where memory is wanting a word is left out, and so the text is not the one that is wanted.
#[derive(Drop)]
pub(crate) struct Text {
    alloc: Global,
    text: String,
}

impl Text {
    pub(crate) fn new(alloc: Global) -> Self {
        Text {
            alloc,
            text: String::new(alloc),
        }
    }

    pub(crate) fn as_str(&self) -> &str {
        self.text.as_str()
    }

    /// Puts a piece behind the text.
    fn push(&mut self, piece: &str) {
        let _ = self.text.push_str(piece);
    }

    /// Ends a line.
    pub(crate) fn end(&mut self) {
        self.push("\n");
    }

    /// Puts a word, or what it stands for.
    pub(crate) fn word(&mut self, word: &str) {
        if !self.text.is_empty() && !self.text.ends_with("\n") {
            self.push(" ");
        }
        self.push(meant(word));
    }

    /// Puts a number behind a letter, as one word.
    pub(crate) fn number(&mut self, letter: &str, number: u64) {
        let mut buffer = Buffer::new();
        self.word(letter);
        self.push(meant(buffer.format(number)));
    }

    /// Puts bytes in hex, as one word; of an imprint its digest.
    pub(crate) fn bytes(&mut self, bytes: &[u8]) {
        let digest = match bytes {
            [1, digest @ ..] => digest,
            _ => bytes,
        };
        match hex::encode(self.alloc, digest) {
            Ok(digits) => self.word(digits.as_str()),
            Err(_) => {}
        }
    }

    /// Puts letters, as one word.
    pub(crate) fn letters(&mut self, letters: &[u8]) {
        match str::from_utf8(letters) {
            Ok(word) => self.word(word),
            Err(_) => {}
        }
    }

    /// Puts the digest of an imprint.
    pub(crate) fn imprint(&mut self, imprint: &Imprint) {
        self.bytes(imprint.bytes());
    }
}
