//! Tests of the top call, `ksi_top::ksi`, over files and an output in memory, and of schedules run through the nodes
//! (`ksi_replay`).
//!
//! They are in a crate of their own, since a crate with tests is proved twice. No layer above uses it. Most are scripts,
//! texts whose rows `script.rt` plays; those of the nodes are rows that `rows.rt` reads.
#![tactic(auto)]

#[cfg(test)]
mod decided;
#[cfg(test)]
mod drills;
#[cfg(test)]
mod failing_calls;
#[cfg(test)]
mod fronts;
#[cfg(test)]
mod generated;
#[cfg(test)]
mod generated_texts;
#[cfg(test)]
mod hostile_bytes;
#[cfg(test)]
mod later_files;
#[cfg(test)]
mod masked_blocks;
#[cfg(test)]
mod migrations;
#[cfg(test)]
mod mirrors;
#[cfg(test)]
mod moments;
#[cfg(test)]
mod names;
#[cfg(test)]
mod nodes;
#[cfg(test)]
mod replays;
#[cfg(test)]
mod rows;
#[cfg(test)]
mod runs;
#[cfg(test)]
mod same;
#[cfg(test)]
mod schedules;
#[cfg(test)]
mod script;
#[cfg(test)]
mod whole_paths;
