//! Names and their metadata.
use crate::same::same;
use crate::text::Text;
use ksi_aggtree::Name;
use std::alloc::Global;

/// A piece of text, and its metadata in hex where it is a name.
const ROWS: &str = "bob = m.bob
al = m.al
Z.9_-x = m.Z
a = 7e02010101026100
aaaaaaaaaaaaaaaaaaaaaaaaaaaaaaaaaaaaaaaaaaaaaaaaaaaaaaaaaaaaaaa = 7e020101014061616161616161616161616161616161616161616161616161616161616161616161616161616161616161616161616161616161616161616161616161616100
aaaaaaaaaaaaaaaaaaaaaaaaaaaaaaaaaaaaaaaaaaaaaaaaaaaaaaaaaaaaaaaa = m.a
 = -
b/b = -
a b = -
a\x00 = -
\u{e4} = -
aaaaaaaaaaaaaaaaaaaaaaaaaaaaaaaaaaaaaaaaaaaaaaaaaaaaaaaaaaaaaaaaa = -";

/// The metadata of a name, or a dash.
fn meta(alloc: Global, letters: &str) -> Text {
    let mut text = Text::new(alloc);
    match Name::read(letters.as_bytes()) {
        Some(name) => text.bytes(name.meta().as_slice()),
        None => text.word("-"),
    }
    text
}

#[test]
fn a_name_has_its_metadata(rt: HostRuntime) {
    for row in ROWS.lines() {
        if let Some((letters, want)) = row.split_once(" = ") {
            same(&rt, row, meta(rt.alloc(), letters).as_str(), want);
        }
    }
}
