//! What an aggregator says, stores and sends at a call, as words.
ghost use Rattle.std.specs.Prelude.{◌≡◌, ◌<◌, ◌^◌, length, IfOk};

use crate::printed::{put_above, put_answer, put_item, put_signature};
use crate::same::same;
use crate::steps::put_entries;
use crate::text::Text;
use ksi_aggregator::{Aggregator, NoMemory, RoundFact, Send, Step};
use ksi_aggtree::Item;
use ksi_imprint::{Compress, Imprint, Sha};
use ksi_signature::{Above, AboveChain, AboveChains, AboveLinks, CalendarLinks};
use std::alloc::Global;

const T: u64 = 1_700_000_000;

fn put_fact(text: &mut Text, what: &RoundFact) {
    match what {
        RoundFact::Closed(items) => put_entries(text, items.as_slice()),
        RoundFact::Answered(above) => put_above(text, above),
    }
}

fn put_send(text: &mut Text, send: &Send) {
    match send {
        Send::Submission(item) => {
            text.word("/");
            put_item(text, item);
        }
        Send::Response(aggregator, above) => {
            text.number("/ a", u64::from(*aggregator));
            put_above(text, above);
        }
    }
}

fn put_step(text: &mut Text, step: &Step) {
    put_answer(text, &step.answer);
    if let Some(fact) = &step.fact {
        text.number("stores ", fact.second);
        put_fact(text, &fact.what);
    }
    for send in step.sends.as_slice() {
        put_send(text, send);
    }
    text.end();
}

/// What a call comes to.
fn put(text: &mut Text, step: &Result<Step, NoMemory>) {
    match step {
        Ok(step) => put_step(text, step),
        Err(_) => {}
    }
}

/// A request of A for a second, where its number is new.
fn ask(text: &mut Text, own: &mut Aggregator<Sha>, number: u64, second: u64)
    requires { second < 2 ^ 63 }
{
    if own.is_new(number) {
        put(text, &own.request(number, second, Sha::of(b""), None));
    } else {
        text.word("old");
        text.end();
    }
}

/// What a core sends of an item that stands alone there, whose imprint is the root.
fn response_of(alloc: Global, input: Imprint) -> Result<Above, NoMemory>
    ensures { IfOk result (λ above. length above.chains ≡ 1) }
{
    let mut chains = Vec::new(alloc);
    chains.push(AboveChain {
        input,
        links: AboveLinks::from_vec(Vec::new(alloc)),
    })?;
    Ok(Above {
        root: input,
        chains: AboveChains::from_vec(chains),
        calendar: CalendarLinks::from_vec(Vec::new(alloc)),
    })
}

/// The response of a core to this root.
fn respond(text: &mut Text, alloc: Global, own: &mut Aggregator<Sha>, root: Imprint) {
    if let Ok(above) = response_of(alloc, root) {
        put(text, &own.response(T, &above));
    }
}

fn put_issued(text: &mut Text, alloc: Global, own: &Aggregator<Sha>, number: u64) {
    if let Ok(Some(bytes)) = own.issued(number) {
        put_signature(text, alloc, bytes.as_slice());
    }
    text.end();
}

/// A request, and a submission of B by aggregator 3; then the close, and responses before it and behind it.
fn goes(text: &mut Text, alloc: Global, own: &mut Aggregator<Sha>) {
    let root = Sha::join(Sha::of(b"").bytes(), Sha::of(b"abc").bytes(), 1);
    ask(text, own, 0, T);
    ask(text, own, 0, T);
    put(text, &own.submission(3, T, Item::new(Sha::of(b"abc"), 0)));
    respond(text, alloc, own, root);
    put(text, &own.close(T));
    put(text, &own.close(T));
    put_issued(text, alloc, own, 0);
    respond(text, alloc, own, root);
    respond(text, alloc, own, Imprint::ZERO);
}

/// A restart keeps what is closed, and not what is open.
fn restarts(text: &mut Text, alloc: Global, own: &mut Aggregator<Sha>) {
    ask(text, own, 1, T + 1);
    own.restart();
    ask(text, own, 0, T);
    ask(text, own, 1, T);
    put_issued(text, alloc, own, 0);
}

/// What a new aggregator says to all of these.
fn put_all(text: &mut Text, alloc: Global) {
    let mut own = Aggregator::<Sha>::new(alloc, 4);
    text.number("a", u64::from(own.me()));
    text.end();
    goes(text, alloc, &mut own);
    restarts(text, alloc, &mut own);
}

const TOLD: &str = "a4
number 0
old
done
nothing
done stores T request 0 A 0 a3 B 0 / AB 1
closed

done stores T above AB from AB calendar AB / a3 above AB from B R 0 A from AB calendar AB
nothing
number 1
old
late
bytes 197 at T 1 3 from A L 0 B at T 1 from AB";

#[test]
fn a_response_is_taken_once_and_after_the_close(rt: HostRuntime) {
    let mut text = Text::new(rt.alloc());
    put_all(&mut text, rt.alloc());
    same(&rt, "aggregator 4", text.as_str().trim_end(), TOLD);
}
