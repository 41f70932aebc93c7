ghost use Rattle.std.specs.Prelude.{◌≡◌, ◌++◌, ◌∷◌, [], ◌<◌, ◌≤◌, ◌+◌, ◌^◌, length, OnOk, OnErr, IfOk};
ghost use Rattle.ksi_split.specs.Ways.{way_of};
ghost use Rattle.ksi_calendar.specs.Climbing.{ClimbsCalendar};
ghost use Rattle.ksi_calendar.specs.Sides.{sides_from_top};
ghost use Rattle.ksi_calendar.specs.Calendar.{calendar_leaf, calendar_root, calendar_path, root_to, node_of, is_covered};

use crate::join::CalendarJoin;
use crate::laws::one_chain;
use crate::second_path::SecondPath;
use ksi_imprint::{Compress, Imprint, NoMemory};
use ksi_split::laws::{one_way, short_ways};
use ksi_split::{Rows, Side, Steps};
use std::alloc::Global;
use std::marker::{Brand, Model};
use std::sync::ledger::{Blank, Ledger};

/// The calendar of the seconds of Unix time from 0: before the start all have the zero imprint, and from there on those
/// that were appended have a root. A contract sees the start and these roots.
#[derive(Drop)]
pub struct Calendar<C: Compress> {
    rows: Rows<Imprint, CalendarJoin<C>>,
}

impl<C: Compress> Model for Calendar<C> {
    ghost use Rattle.std.specs.Prelude.{◌≡◌};
    ghost use Rattle.ksi_imprint.specs.Imprints.{zero_imprint};
    ghost use Rattle.ksi_calendar.specs.Calendar.{Seconds};

    ghost Value = { Seconds };

    ghost view = { λ c. record { start = c.rows.start; roots = c.rows.items } };

    ghost invariant = { λ c. c.rows.before ≡ zero_imprint };
}

impl<C: Compress> Calendar<C> {
    /// The calendar whose seconds from the start on have no root yet; the start is at most 2^63.
    ///
    /// # Errors
    /// `NoMemory`: no calendar is made.
    pub fn new(alloc: Global, start: u64) -> Result<Self, NoMemory>
        requires { start ≤ 2 ^ 63 }
        ensures { IfOk result (λ calendar. calendar ≡ record { start = start; roots = [] }) }
    {
        let rows = Rows::new(alloc, start, Imprint::ZERO)?;
        Ok(Calendar { rows })
    }

    /// The first second that has a root, or is to have one.
    pub fn start(&self) -> u64
        ensures { result ≡ self.now.start }
    {
        self.rows.start()
    }

    /// How many seconds from the start on have a root.
    pub fn count(&self) -> u64
        ensures { result ≡ length self.now.roots }
    {
        self.rows.count()
    }

    /// The root of the seconds from 0 to `p`, none where `p` is before the start or has no root yet.
    pub fn root_to(&self, p: u64) -> Option<Imprint>
        ensures { result ≡ root_to C.image self.now p }
    {
        if self.covers(p) {
            Some(self.rows.root(p))
        } else {
            None
        }
    }

    /// The node of the tree over the seconds from 0 to `p` that sides from the top lead to, none where `p` is before
    /// the start or has no root yet, or where the sides go past a leaf.
    pub fn node(&self, p: u64, sides: &[Side]) -> Option<Imprint>
        ensures { result ≡ node_of C.image self.now p sides.now }
    {
        if self.covers(p) {
            self.rows.node(p, sides)
        } else {
            None
        }
    }

    /// The links from the leaf of second `t`, which may lie before the start, up to the root of the seconds from 0 to
    /// `p`, the lowest first; `t` is at most `p`, and `p` is before the start or has a root.
    ///
    /// # Errors
    /// `NoMemory`: all is as it was.
    pub fn chain_to(&self, t: u64, p: u64) -> Result<SecondPath, NoMemory>
        requires within { t ≤ p }
        requires covered { p < self.now.start + length self.now.roots }
        ensures links { IfOk result (λ links. links ≡ calendar_path C.image self.now t p) }
        ensures climbs { IfOk result (λ links.
            ClimbsCalendar C.image (calendar_leaf self.now t) links (calendar_root C.image self.now p)) }
        ensures way { IfOk result (λ links. sides_from_top links ≡ way_of t (p + 1)) }
        ensures few { p < 2 ^ 63 → IfOk result (λ links. length links ≤ 63) }
    {
        chain_from::<C, Brand>(self, t, p, Blank::new(1))
    }

    /// The same, with its steps, which are one for each link at least, and at most 126.
    ///
    /// # Errors
    /// `NoMemory`: all is as it was, but for the steps that were taken.
    pub fn chain_to_counted<L: Ledger>(
        &self,
        t: u64,
        p: u64,
        steps: &mut Steps<L>,
    ) -> Result<SecondPath, NoMemory>
        requires within { t ≤ p }
        requires covered { p < self.now.start + length self.now.roots }
        ensures links { IfOk result (λ links. links ≡ calendar_path C.image self.now t p) }
        ensures climbs { IfOk result (λ links.
            ClimbsCalendar C.image (calendar_leaf self.now t) links (calendar_root C.image self.now p)) }
        ensures way { IfOk result (λ links. sides_from_top links ≡ way_of t (p + 1)) }
        ensures few { p < 2 ^ 63 → IfOk result (λ links. length links ≤ 63) }
        ensures most { steps.new ≤ steps.old + 126 }
        ensures least { IfOk result (λ links. steps.old + length links ≤ steps.new) }
    {
        one_chain();
        one_way();
        short_ways();
        Ok(SecondPath::from_vec(self.rows.path_counted(t, p, steps)?))
    }

    /// Adds the root of the next second, which is below 2^63.
    ///
    /// # Errors
    /// `NoMemory`: all is as it was.
    pub fn append(&mut self, root: Imprint) -> Result<(), NoMemory>
        requires { self.old.start + length self.old.roots < 2 ^ 63 }
        ensures added { OnOk result (self.new ≡ record self.old { roots = self.old.roots ++ root ∷ [] }) }
        ensures unchanged { OnErr result (self.new ≡ self.old) }
    {
        self.rows.append(root)
    }

    /// Adds the roots of the next seconds in order, all of which are below 2^63.
    ///
    /// # Errors
    /// `NoMemory`: all is as it was, and none is added.
    pub fn append_all(&mut self, roots: &[Imprint]) -> Result<(), NoMemory>
        requires { self.old.start + length self.old.roots + length roots.now ≤ 2 ^ 63 }
        ensures added { OnOk result (self.new ≡ record self.old { roots = self.old.roots ++ roots.now }) }
        ensures unchanged { OnErr result (self.new ≡ self.old) }
    {
        self.rows.append_all(roots)
    }

    /// Whether `p` is at or after the start and has a root.
    fn covers(&self, p: u64) -> bool
        ensures { result ≡ is_covered self.now p }
    {
        let start = self.rows.start();
        start <= p && p - start < self.rows.count()
    }
}

fn chain_from<C: Compress, L: Ledger>(
    calendar: &Calendar<C>,
    t: u64,
    p: u64,
    blank: Blank,
) -> Result<SecondPath, NoMemory>
    requires name { blank.name ≡ L.name }
    requires parts { blank.parts ≡ L.parts }
    requires one { blank.parts ≡ 1 }
    requires within { t ≤ p }
    requires covered { p < calendar.now.start + length calendar.now.roots }
    ensures links { IfOk result (λ links. links ≡ calendar_path C.image calendar.now t p) }
    ensures climbs { IfOk result (λ links.
        ClimbsCalendar C.image (calendar_leaf calendar.now t) links (calendar_root C.image calendar.now p)) }
    ensures way { IfOk result (λ links. sides_from_top links ≡ way_of t (p + 1)) }
    ensures few { p < 2 ^ 63 → IfOk result (λ links. length links ≤ 63) }
{
    let mut steps = Steps::<L>::open(blank);
    calendar.chain_to_counted(t, p, &mut steps)
}
