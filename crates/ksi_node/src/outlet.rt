//! The output of a node.
ghost use Rattle.std.specs.Prelude.{◌≡◌, ℕ, List, Option, OnOk, OnErr};
ghost use Rattle.std.specs.Io.KnownBytes.{Appends};
ghost use Rattle.ksi_aggregator.specs.Rounds.{rounds_of};
ghost use Rattle.ksi_nodestore.specs.StoreState.{IsStore};
ghost use Rattle.ksi_ports.specs.Host.{AppendsFront};
ghost use Rattle.ksi_ports.specs.Outside.{count_up, Raises};
ghost use Rattle.ksi_roundstore.specs.Stores as rounds;
ghost use Rattle.ksi_schedule.specs.Plans.{PlanState};
ghost use Rattle.ksi_node.specs.RoundOutcomes.{SignTold};
ghost use Rattle.ksi_node.specs.RoundSaying.{MaySayRound};
ghost use Rattle.ksi_node.specs.Saying.{MaySay};
ghost use Rattle.ksi_node.specs.Serving.{ready_text};
ghost use Rattle.ksi_wire.specs.Chains.{chain_text};
ghost use Rattle.ksi_wire.specs.Refused.{refusal_text};
ghost use Rattle.ksi_wire.specs.Told.{held_text};

use ksi_disk::Disk;
use ksi_imprint::Compress;
use ksi_nodestore::NodeStore;
use ksi_ports::{HostSink, Sink, SinkFailed};
use ksi_roundstore::RoundStore;
use ksi_schedule::Plan;
use ksi_wire::{ChainEnds, Span, WireFault};
use std::io::Write;

/// Writes the texts of a node, each by one put. The condition of a call is checked at the call itself, so it holds of each
/// text that ever goes out, whether or not the process ends. After a failed put a prefix of the text went out.
pub trait Outlet {
    /// All bytes that went out, if they are known.
    ghost said: { Self → Option (List ℕ) };

    /// How often a text was put.
    ghost puts: { Self → ℕ };

    /// How often a put failed.
    ghost faults: { Self → ℕ };

    /// What came of a step of a core whose facts are in this store.
    fn say_step<C: Compress, D: Disk>(
        &mut self,
        store: &NodeStore<C, D>,
        text: &[u8],
    ) -> Result<(), SinkFailed>
        requires { MaySay C.image D.content D.images store.now text.now }
        ensures said { OnOk result (Appends (said self.old) (said self.new) text.now) }
        ensures begun { OnErr result (AppendsFront (said self.old) (said self.new) text.now) }
        ensures once { puts self.new ≡ count_up 1 (puts self.old) }
        ensures counted { OnOk result (faults self.new ≡ faults self.old) }
        ensures failed { OnErr result (Raises (faults self.old) (faults self.new)) };

    /// What the core of this store has of some seconds.
    fn say_held<C: Compress, D: Disk>(
        &mut self,
        store: &NodeStore<C, D>,
        span: Span,
        text: &[u8],
    ) -> Result<(), SinkFailed>
        requires { text.now ≡ held_text store.now.core span }
        ensures said { OnOk result (Appends (said self.old) (said self.new) text.now) }
        ensures begun { OnErr result (AppendsFront (said self.old) (said self.new) text.now) }
        ensures once { puts self.new ≡ count_up 1 (puts self.old) }
        ensures counted { OnOk result (faults self.new ≡ faults self.old) }
        ensures failed { OnErr result (Raises (faults self.old) (faults self.new)) };

    /// The chain from a second to the root of a calendar, in what the core of this store holds.
    fn say_chain<C: Compress, D: Disk>(
        &mut self,
        store: &NodeStore<C, D>,
        ends: ChainEnds,
        text: &[u8],
    ) -> Result<(), SinkFailed>
        requires { text.now ≡ chain_text C.image store.now.core ends }
        ensures said { OnOk result (Appends (said self.old) (said self.new) text.now) }
        ensures begun { OnErr result (AppendsFront (said self.old) (said self.new) text.now) }
        ensures once { puts self.new ≡ count_up 1 (puts self.old) }
        ensures counted { OnOk result (faults self.new ≡ faults self.old) }
        ensures failed { OnErr result (Raises (faults self.old) (faults self.new)) };

    /// The refusal of a line to a core. The facts of its store are those of its file.
    fn say_refusal<C: Compress, D: Disk>(
        &mut self,
        store: &NodeStore<C, D>,
        fault: WireFault,
        text: &[u8],
    ) -> Result<(), SinkFailed>
        requires text { text.now ≡ refusal_text fault }
        requires stored { IsStore C.image D.content D.images store.now }
        ensures said { OnOk result (Appends (said self.old) (said self.new) text.now) }
        ensures begun { OnErr result (AppendsFront (said self.old) (said self.new) text.now) }
        ensures once { puts self.new ≡ count_up 1 (puts self.old) }
        ensures counted { OnOk result (faults self.new ≡ faults self.old) }
        ensures failed { OnErr result (Raises (faults self.old) (faults self.new)) };

    /// The node is ready, with this number of records.
    fn say_ready(&mut self, records: u64, text: &[u8]) -> Result<(), SinkFailed>
        requires { text.now ≡ ready_text records }
        ensures said { OnOk result (Appends (said self.old) (said self.new) text.now) }
        ensures begun { OnErr result (AppendsFront (said self.old) (said self.new) text.now) }
        ensures once { puts self.new ≡ count_up 1 (puts self.old) }
        ensures counted { OnOk result (faults self.new ≡ faults self.old) }
        ensures failed { OnErr result (Raises (faults self.old) (faults self.new)) };

    /// What came of a step of an aggregator whose facts are in this store.
    fn say_round_step<C: Compress, D: Disk>(
        &mut self,
        plan: &Plan,
        store: &RoundStore<C, D>,
        text: &[u8],
    ) -> Result<(), SinkFailed>
        requires { MaySayRound C.image D.content D.images plan.now store.now text.now }
        ensures said { OnOk result (Appends (said self.old) (said self.new) text.now) }
        ensures begun { OnErr result (AppendsFront (said self.old) (said self.new) text.now) }
        ensures once { puts self.new ≡ count_up 1 (puts self.old) }
        ensures counted { OnOk result (faults self.new ≡ faults self.old) }
        ensures failed { OnErr result (Raises (faults self.old) (faults self.new)) };

    /// The refusal of a line to an aggregator. The facts of its store are those of its file.
    fn say_round_refusal<C: Compress, D: Disk>(
        &mut self,
        store: &RoundStore<C, D>,
        fault: WireFault,
        text: &[u8],
    ) -> Result<(), SinkFailed>
        requires text { text.now ≡ refusal_text fault }
        requires kept { (me : ℕ) × (plan : PlanState) × rounds.IsStore D.content D.images me plan store.now }
        ensures said { OnOk result (Appends (said self.old) (said self.new) text.now) }
        ensures begun { OnErr result (AppendsFront (said self.old) (said self.new) text.now) }
        ensures once { puts self.new ≡ count_up 1 (puts self.old) }
        ensures counted { OnOk result (faults self.new ≡ faults self.old) }
        ensures failed { OnErr result (Raises (faults self.old) (faults self.new)) };

    /// The signature of a request in hex, or that none is issued, by the rounds of this store, whose facts are in its file.
    fn say_signature<C: Compress, D: Disk>(
        &mut self,
        store: &RoundStore<C, D>,
        number: u64,
        text: &[u8],
    ) -> Result<(), SinkFailed>
        requires told { SignTold C.image (rounds_of store.now.aggregator) number text.now }
        requires kept { (me : ℕ) × (plan : PlanState) × rounds.IsStore D.content D.images me plan store.now }
        ensures said { OnOk result (Appends (said self.old) (said self.new) text.now) }
        ensures begun { OnErr result (AppendsFront (said self.old) (said self.new) text.now) }
        ensures once { puts self.new ≡ count_up 1 (puts self.old) }
        ensures counted { OnOk result (faults self.new ≡ faults self.old) }
        ensures failed { OnErr result (Raises (faults self.old) (faults self.new)) };
}

/// A writer, to which each text is put at once.
#[derive(Drop)]
pub struct HostOutlet<W: Write> {
    sink: HostSink<W>,
}

impl<W: Write> HostOutlet<W> {
    pub fn new(writer: W) -> Self
        ensures sink { result.sink ≡ record { writer = writer; puts = 0; given = 0; faults = 0 } }
    {
        HostOutlet {
            sink: HostSink::new(writer),
        }
    }
}

impl<W: Write> Outlet for HostOutlet<W> {
    ghost said = { λ out. W.contents out.sink.writer };

    ghost puts = { λ out. out.sink.puts };

    ghost faults = { λ out. out.sink.faults };

    fn say_step<C: Compress, D: Disk>(
        &mut self,
        _store: &NodeStore<C, D>,
        text: &[u8],
    ) -> Result<(), SinkFailed> {
        self.sink.put(text)
    }

    fn say_held<C: Compress, D: Disk>(
        &mut self,
        _store: &NodeStore<C, D>,
        _span: Span,
        text: &[u8],
    ) -> Result<(), SinkFailed> {
        self.sink.put(text)
    }

    fn say_chain<C: Compress, D: Disk>(
        &mut self,
        _store: &NodeStore<C, D>,
        _ends: ChainEnds,
        text: &[u8],
    ) -> Result<(), SinkFailed> {
        self.sink.put(text)
    }

    fn say_refusal<C: Compress, D: Disk>(
        &mut self,
        _store: &NodeStore<C, D>,
        _fault: WireFault,
        text: &[u8],
    ) -> Result<(), SinkFailed> {
        self.sink.put(text)
    }

    fn say_ready(&mut self, _records: u64, text: &[u8]) -> Result<(), SinkFailed> {
        self.sink.put(text)
    }

    fn say_round_step<C: Compress, D: Disk>(
        &mut self,
        _plan: &Plan,
        _store: &RoundStore<C, D>,
        text: &[u8],
    ) -> Result<(), SinkFailed> {
        self.sink.put(text)
    }

    fn say_round_refusal<C: Compress, D: Disk>(
        &mut self,
        _store: &RoundStore<C, D>,
        _fault: WireFault,
        text: &[u8],
    ) -> Result<(), SinkFailed> {
        self.sink.put(text)
    }

    fn say_signature<C: Compress, D: Disk>(
        &mut self,
        _store: &RoundStore<C, D>,
        _number: u64,
        text: &[u8],
    ) -> Result<(), SinkFailed> {
        self.sink.put(text)
    }
}
