//! What the elements of a mirror's file say, as they are loaded.
ghost use Rattle.std.specs.Prelude.{◌≡◌};
ghost use Rattle.ksi_mirror.specs.Elements.{counts};

use crate::entries::push_item;
use crate::fields::{read_list, read_root};
use crate::parts::MirrorParts;
use crate::sealed_list::SealedList;
use crate::stage::MirrorStage;
use ksi_aggtree::{Item, Items, MOST_ITEMS};
use ksi_imprint::Refused;
use ksi_journal::{JournalFault, named, read_item};
use ksi_tlv::Placed;
use ksi_tlv::order::{OrderFault, Ordered, time};
use std::alloc::Global;
use std::marker::Model;
use std::mem;

pub(crate) const START: u16 = 0x01;

pub(crate) const ROOT: u16 = 0x02;

pub(crate) const ITEM: u16 = 0x03;

pub(crate) const END: u16 = 0x06;

pub(crate) const NAMED: u16 = 0x07;

pub(crate) const LIST: u16 = 0x09;

/// What the elements so far say. If memory runs out for an element, `load_mirror` drops all that was loaded.
#[derive(Drop)]
pub(crate) struct MirrorLoading {
    stage: MirrorStage,
    parts: MirrorParts,
    least_root: u64,
    least_list: u64,
    least_core: u8,
    second: u64,
    core: u8,
    items: Vec<Item>,
    left: usize,
    alloc: Global,
}

impl Model for MirrorLoading {
    ghost use Rattle.ksi_mirror.specs.Mirrors.{mirror_of_parts};
    ghost use Rattle.ksi_mirror.specs.Elements.{MirrorSaid};
    ghost use Rattle.ksi_mirror.specs.Loading.{IsLoading};

    ghost Value = { MirrorSaid };

    ghost view = { λ s. record {
      stage = s.stage;
      mirror = mirror_of_parts s.parts;
      least_root = s.least_root;
      least_list = s.least_list;
      least_core = s.least_core;
      current = record { second = s.second; core = s.core; items = s.items.items };
      left = s.left;
    } };

    ghost invariant = { λ s. IsLoading s.second s.core };
}

impl MirrorLoading {
    ghost use Rattle.std.specs.Prelude.{◌≡◌, ◌≢◌, ◌<◌, ◌≤◌, ◌^◌, Ok, Err, IsOk};
    ghost use Rattle.ksi_tlv.specs.Views.{view_placed};
    ghost use Rattle.ksi_tlv.specs.Order.{Steps};
    ghost use Rattle.ksi_imprint.specs.declared.refused.Refused.TheVariants as refused;
    ghost use Rattle.ksi_mirror.specs.Mirrors.{mirror_of_parts};
    ghost use Rattle.ksi_mirror.specs.Elements.{nothing_yet, start_at, root_at, list_at, counted, item_at, with_item, closed, end_at};

    /// Nothing is read yet.
    pub(crate) fn new(alloc: Global) -> Self
        ensures { result ≡ nothing_yet }
    {
        MirrorLoading {
            stage: MirrorStage::Start,
            parts: MirrorParts {
                start: 0,
                roots: Vec::new(alloc),
                lists: Vec::new(alloc),
            },
            least_root: 0,
            least_list: 0,
            least_core: 0,
            second: 0,
            core: 0,
            items: Vec::new(alloc),
            left: 0,
            alloc,
        }
    }

    /// What the mirror is made of that whole elements say.
    pub(crate) fn into_parts(self) -> MirrorParts
        ensures { mirror_of_parts result ≡ self.mirror }
    {
        let MirrorLoading {
            stage: _,
            parts,
            least_root: _,
            least_list: _,
            least_core: _,
            second: _,
            core: _,
            items: _,
            left: _,
            alloc: _,
        } = self;
        parts
    }

    #[tactic(auto, unfolding(crate::specs::Elements::start_at))]
    fn start(&mut self, at: &Placed<'_>) -> Result<(), Refused<JournalFault>>
        ensures read { Steps (start_at self.old (view_placed at.now)) self.new result }
        ensures memory { result ≢ Err refused.NoMemory }
    {
        match time(at) {
            Ok(start) => {
                self.stage = MirrorStage::Roots;
                self.parts.start = start;
                self.least_root = start;
                self.least_list = start;
                Ok(())
            }
            Err(fault) => Err(Refused::Fault(named(fault))),
        }
    }

    #[tactic(auto, unfolding(crate::specs::Elements::root_at))]
    fn root(&mut self, at: &Placed<'_>) -> Result<(), Refused<JournalFault>>
        ensures read { Steps (root_at self.old (view_placed at.now)) self.new result }
        ensures wanting { result ≡ Err refused.NoMemory → IsOk (root_at self.old (view_placed at.now)) }
    {
        let (second, root) = match read_root(at, self.least_root) {
            Ok(root) => root,
            Err(fault) => return Err(Refused::Fault(named(fault))),
        };
        if self.parts.roots.push((second, root)).is_err() {
            return Err(Refused::NoMemory);
        }
        self.least_root = second + 1;
        Ok(())
    }

    #[tactic(auto, unfolding(crate::specs::Elements::list_at))]
    fn list(&mut self, at: &Placed<'_>) -> Result<(), Refused<JournalFault>>
        ensures read { Steps (list_at self.old (view_placed at.now)) self.new result }
        ensures wanting { result ≡ Err refused.NoMemory → IsOk (list_at self.old (view_placed at.now)) }
    {
        match read_list(at, self.least_list, self.least_core) {
            Ok((second, core, count)) => self.open(second, core, count),
            Err(fault) => Err(Refused::Fault(named(fault))),
        }
    }

    /// A list of which this many items are to come.
    fn open(&mut self, second: u64, core: u8, count: u64) -> Result<(), Refused<JournalFault>>
        requires { core ≤ 8 }
        ensures read { Steps (counted self.old second core count) self.new result }
        ensures wanting { result ≡ Err refused.NoMemory → IsOk (counted self.old second core count) }
    {
        if !counts(count) {
            return Err(Refused::Fault(JournalFault::Count(second)));
        }
        let count = count as usize;
        let items = match Vec::with_capacity(self.alloc, if count == 1 { 0 } else { count }) {
            Ok(items) => items,
            Err(_) => return Err(Refused::NoMemory),
        };
        self.stage = MirrorStage::Items;
        self.second = second;
        self.core = core;
        self.items = items;
        self.left = count;
        Ok(())
    }

    #[tactic(auto, unfolding(crate::specs::Elements::item_at))]
    fn item(&mut self, at: &Placed<'_>) -> Result<(), Refused<JournalFault>>
        ensures read { Steps (item_at self.old (view_placed at.now)) self.new result }
        ensures wanting { result ≡ Err refused.NoMemory → IsOk (item_at self.old (view_placed at.now)) }
    {
        let item = match read_item(at) {
            Ok(item) => item,
            Err(fault) => return Err(Refused::Fault(fault)),
        };
        if self.left > 1 {
            if push_item(&mut self.items, item).is_err() {
                return Err(Refused::NoMemory);
            }
            self.left -= 1;
            return Ok(());
        }
        self.finish(item)
    }

    /// The last item of a list, which needs no room where it is alone.
    fn finish(&mut self, item: Item) -> Result<(), Refused<JournalFault>>
        ensures { Steps (Ok (closed self.old (with_item self.old.current item))) self.new result }
    {
        if self.items.is_empty() {
            return self.close(Items::one(item));
        }
        let mut items = mem::replace(&mut self.items, Vec::new(self.alloc));
        if push_item(&mut items, item).is_err() {
            return Err(Refused::NoMemory);
        }
        self.close(Items::from_vec(items))
    }

    /// A list all of whose items are there.
    fn close(&mut self, items: Items) -> Result<(), Refused<JournalFault>>
        ensures { Steps (Ok (closed self.old (record self.old.current { items = items }))) self.new result }
    {
        let list = SealedList {
            second: self.second,
            core: self.core,
            items,
        };
        if self.parts.lists.push(list).is_err() {
            return Err(Refused::NoMemory);
        }
        self.stage = MirrorStage::Lists;
        self.least_list = self.second;
        self.least_core = self.core + 1;
        self.second = 0;
        self.core = 0;
        self.items = Vec::new(self.alloc);
        self.left = 0;
        Ok(())
    }

    #[tactic(auto, unfolding(crate::specs::Elements::end_at))]
    fn end(&mut self, at: &Placed<'_>) -> Result<(), Refused<JournalFault>>
        ensures read { Steps (end_at self.old (view_placed at.now)) self.new result }
        ensures memory { result ≢ Err refused.NoMemory }
    {
        if at.element.body.is_empty() {
            self.stage = MirrorStage::End;
            Ok(())
        } else {
            Err(Refused::Fault(JournalFault::Ends(at.place)))
        }
    }
}

impl Ordered<JournalFault> for MirrorLoading {
    ghost use Rattle.ksi_mirror.specs.Elements.{WantsFor, mirror_order};

    ghost order = { mirror_order };

    ghost wants = { WantsFor };

    fn may_stand(&self, kind: u16) -> bool {
        match self.stage {
            MirrorStage::Start => kind == START,
            MirrorStage::Roots => matches!(kind, ROOT | LIST | END),
            MirrorStage::Items => matches!(kind, ITEM | NAMED),
            MirrorStage::Lists => matches!(kind, LIST | END),
            MirrorStage::End => false,
        }
    }

    fn is_closed(&self) -> bool {
        matches!(self.stage, MirrorStage::End)
    }

    fn is_whole(&self) -> bool {
        self.is_closed()
    }

    fn named(fault: OrderFault) -> JournalFault {
        named(fault)
    }

    #[tactic(auto, unfolding(crate::specs::Elements::element_read))]
    fn take(&mut self, at: &Placed<'_>) -> Result<(), Refused<JournalFault>> {
        match at.element.kind {
            START => self.start(at),
            ROOT => self.root(at),
            LIST => self.list(at),
            ITEM | NAMED => self.item(at),
            _ => self.end(at),
        }
    }
}

/// A list has an item, and at most 65,536.
fn counts(count: u64) -> bool
    ensures { result ≡ counts count }
{
    1 <= count && count <= MOST_ITEMS as u64
}
