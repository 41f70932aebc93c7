// What a word of a line stands for.
ghost use Rattle.std.specs.Prelude.{◌≡◌, ◌<◌, IfOk, length};
ghost use Rattle.ksi_aggtree.specs.Names.{IsName};
ghost use Rattle.ksi_schedule.specs.Plans.{InRange};
ghost use Rattle.ksi_schedule.specs.Words.{number_at, core_at, aggregator_at, time_word, digest_at, name_at};

use crate::decimal::read_number;
use crate::fault::LineFault;
use crate::plan::Plan;
use ksi_aggtree::Name;
use ksi_imprint::Imprint;
use ksi_synod::PLAN_SECONDS;

pub(crate) fn core(plan: &Plan, word: &[u8]) -> Result<u8, LineFault>
    ensures value { result ≡ core_at plan.now word.now }
    ensures there { IfOk result (λ j. j < plan.now.cores) }
    ensures few { IfOk result (λ j. j < 9) }
{
    let n = number(word)?;
    if n < u64::from(plan.cores()) {
        Ok(n as u8)
    } else {
        Err(LineFault::NoSuchActor)
    }
}

pub(crate) fn aggregator(plan: &Plan, word: &[u8]) -> Result<u32, LineFault>
    ensures value { result ≡ aggregator_at plan.now word.now }
    ensures there { IfOk result (λ k. k < length plan.now.parents) }
{
    let n = number(word)?;
    if n < plan.aggregators() as u64 {
        Ok(n as u32)
    } else {
        Err(LineFault::NoSuchActor)
    }
}

pub(crate) fn second(plan: &Plan, word: &[u8]) -> Result<u64, LineFault>
    ensures value { result ≡ time_word plan.now word.now }
    ensures there { IfOk result (λ t. InRange plan.now t) }
{
    let n = number(word)?;
    if plan.start() <= n && n - plan.start() < PLAN_SECONDS {
        Ok(n)
    } else {
        Err(LineFault::SecondOutOfRange)
    }
}

pub(crate) fn number(word: &[u8]) -> Result<u64, LineFault>
    ensures { result ≡ number_at word.now }
{
    match read_number(word) {
        Some(n) => Ok(n),
        None => Err(LineFault::Number),
    }
}

pub(crate) fn digest(word: &[u8]) -> Result<Imprint, LineFault>
    ensures { result ≡ digest_at word.now }
{
    let Ok(text) = str::from_utf8(word) else {
        return Err(LineFault::Hash);
    };
    match Imprint::from_hex(text) {
        Ok(imprint) => Ok(imprint),
        Err(_) => Err(LineFault::Hash),
    }
}

pub(crate) fn name(word: &[u8]) -> Result<Name, LineFault>
    ensures value { result ≡ name_at word.now }
    ensures there { IfOk result IsName }
{
    match Name::read(word) {
        Some(name) => Ok(name),
        None => Err(LineFault::Name),
    }
}
