use crate::blocks::two_lines;
use crate::imprints::named;
use crate::same::same;
use ksi_aggtree::chains::LevelFault;
use ksi_imprint::{Imprint, Tiny};
use ksi_logblock::{LineLink, LineLinks, LineProof, LineRefusal, Located, locate};
use ksi_split::Side;
use ksi_split::Side::{Left, Right};
use std::alloc::Global;
use std::test::Fail;

/// Where a line stands, or the sizes of both strings of a clash.
#[derive(Clone, Copy, PartialEq, Eq)]
enum Found {
    In(usize),
    Refused(LineRefusal),
    Clash(usize, usize),
    Nothing,
}

/// A proof of one link.
fn proof(
    alloc: Global,
    mask: Imprint,
    side: Side,
    correction: u8,
    sibling: Imprint,
) -> Option<LineProof> {
    let mut links = Vec::new(alloc);
    links
        .push(LineLink {
            side,
            correction,
            sibling,
        })
        .ok()?;
    Some(LineProof {
        mask,
        links: LineLinks::from_vec(links),
    })
}

fn answer_of(alloc: Global, line: &[u8], proof: Option<LineProof>) -> Found {
    let (Ok(block), Some(proof)) = (two_lines(alloc), proof) else {
        return Found::Nothing;
    };
    if block.count() == 0 {
        return Found::Nothing;
    }
    match locate(alloc, &block, line, &proof) {
        Ok(Located::In(k)) => Found::In(k),
        Ok(Located::NotAccepted(refusal)) => Found::Refused(refusal),
        Ok(Located::Clash(clash)) => {
            Found::Clash(clash.one.as_slice().len(), clash.two.as_slice().len())
        }
        Err(_) => Found::Nothing,
    }
}

#[test]
fn a_line_is_there_or_refused_or_clashes(rt: HostRuntime) -> Result<(), Fail> {
    let differs = LineRefusal::RootDiffers(named(0x96), named(0x94));
    let over = LineRefusal::Level(LevelFault::Over {
        link: 0,
        level: 257,
    });
    let rows: [(&[u8], u8, Side, u8, u8, Found); 7] = [
        (b"a", 0x21, Left, 0, 0x0b, Found::In(0)),
        (b"b", 0xa6, Right, 0, 0x85, Found::In(1)),
        (b"01", 0x21, Left, 0, 0x0b, Found::Clash(2, 1)),
        (b"c", 0x21, Left, 0, 0x0b, Found::Refused(differs)),
        (b"a", 0x21, Left, 255, 0x0b, Found::Refused(over)),
        (b"`", 0x22, Left, 0, 0x0b, Found::Clash(67, 67)),
        (b"a", 0x21, Right, 0, 0x0b, Found::Clash(67, 67)),
    ];
    for (line, mask, side, correction, sibling, want) in &rows {
        let given = proof(
            rt.alloc(),
            named(*mask),
            *side,
            *correction,
            named(*sibling),
        );
        same(&rt, *mask, answer_of(rt.alloc(), line, given), *want);
    }
    Ok(())
}

/// Both strings of the clash that a line of the sum of `a` has with `a`.
fn are_both_lines(alloc: Global) -> bool {
    let given = proof(alloc, named(0x21), Left, 0, named(0x0b));
    let (Ok(block), Some(proof)) = (two_lines(alloc), given) else {
        return false;
    };
    if block.count() == 0 {
        return false;
    }
    match locate(alloc, &block, b"01", &proof) {
        Ok(Located::Clash(clash)) => {
            clash.one.as_slice() == b"01".as_slice() && clash.two.as_slice() == b"a".as_slice()
        }
        _ => false,
    }
}

#[test]
fn another_line_of_one_sum_clashes_with_the_kept_one(rt: HostRuntime) -> Result<(), Fail> {
    same(&rt, "lines", are_both_lines(rt.alloc()), true);
    Ok(())
}
