ghost use Rattle.std.specs.Prelude.{◌≡◌, ◌+◌, ◌^◌, ◌<◌, ◌↔◌, length, Err, IsOk};
ghost use Rattle.ksi_tlv.specs.Views.{view_placed};
ghost use Rattle.ksi_tlv.specs.Containing.{container_verdict, is_full, over_fault};
ghost use Rattle.ksi_tlv.specs.Valid.{IsWhole, IsFirstFault};
ghost use Rattle.ksi_tlv.specs.Counters.{IsStep};

use crate::grammar::fault::ElementFault;
use crate::grammar::rule::{Over, Rule, Seen};
use crate::grammar::table::Grammar;
use crate::{Elements, Placed};

/// Reads the body of a container at a place, the body's first byte inside: nothing if it is valid there, otherwise its
/// first fault.
pub fn check<G: Grammar>(place: usize, inside: usize, body: &[u8]) -> Result<(), ElementFault>
    requires { inside + length body.now < 2 ^ 64 }
    ensures ok { IsOk result ↔ IsWhole G.table inside body.now }
    ensures fault { (fault : ElementFault) → (result ≡ Err fault) ↔ IsFirstFault G.table place inside body.now fault }
    ensures exact { result ≡ container_verdict G.table place inside body.now }
{
    scan::<G>(place, inside, body)
}

fn scan<G: Grammar>(place: usize, inside: usize, body: &[u8]) -> Result<(), ElementFault>
    requires { inside + length body.now < 2 ^ 64 }
    ensures { result ≡ container_verdict G.table place inside body.now }
{
    let mut seen = [0; 8];
    let mut elements = Elements::at(inside, body);
    while let Some(item) = elements.next() {
        match item {
            Ok(at) => count::<G>(&mut seen, &at)?,
            Err((place, _)) => return Err(ElementFault::Tlv(place)),
        }
    }
    G::end(&seen, place)
}

/// What is wrong with an element, else one more of its slot.
#[tactic(auto, unfolding(crate::specs::Counters::step))]
fn count<G: Grammar>(seen: &mut Seen, at: &Placed<'_>) -> Result<(), ElementFault>
    ensures { IsStep G.table seen.old (view_placed at.now) seen.new result }
{
    let kind = at.element.kind;
    if G::is_refused(kind) {
        return Err(ElementFault::RefusedElement(kind, at.place));
    }
    let Some(rule) = G::rule(kind) else {
        return if at.element.non_critical {
            Ok(())
        } else {
            Err(ElementFault::UnknownCritical(kind, at.place))
        };
    };
    if is_full(&rule, seen[rule.slot]) {
        return Err(too_many(rule.over, kind, at.place));
    }
    G::content(at)?;
    seen[rule.slot] = seen[rule.slot].saturating_add(1);
    Ok(())
}

fn is_full(rule: &Rule, count: u16) -> bool
    ensures { result ≡ is_full rule.now.most count }
{
    match rule.most {
        Some(most) => count >= most,
        None => false,
    }
}

fn too_many(over: Over, kind: u16, place: usize) -> ElementFault
    ensures { result ≡ over_fault over kind place }
{
    match over {
        Over::Repeated => ElementFault::Repeated(kind, place),
        Over::Links => ElementFault::Links(place),
        Over::Chains => ElementFault::Chains(place),
        Over::Sibling => ElementFault::Sibling(place),
    }
}
