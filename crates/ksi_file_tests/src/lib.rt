//! Tests of the small crates at the bottom, of files, and of the crates over files: `ksi_imprint`, `ksi_split`, `ksi_tlv`,
//! `ksi_ports`, `ksi_calendar`, `ksi_publications` and `ksi_words`; the trees and chains of `ksi_aggtree`; the readers and
//! writers of `ksi_signature`, `ksi_schedule` and `ksi_journal`; the fronts of `ksi_consistency`, the mirrors of
//! `ksi_mirror` and the blocks of log lines of `ksi_logblock`; and `ksi_verifier`, `ksi_texts`, `ksi_extender` and
//! `ksi_auditor`.
//!
//! They are in a crate of their own, since a crate with tests is proved twice. No layer above uses it. Most tests are rows
//! of text: words that describe bytes, an equals sign, and the expected result.
#![tactic(auto)]

#[cfg(test)]
mod auditing;
#[cfg(test)]
mod blocks;
#[cfg(test)]
mod calendar_chains;
#[cfg(test)]
mod calendars;
#[cfg(test)]
mod containers;
#[cfg(test)]
mod cut_writers;
#[cfg(test)]
mod elements;
#[cfg(test)]
mod extended_signatures;
#[cfg(test)]
mod extending;
#[cfg(test)]
mod front_files;
#[cfg(test)]
mod fronts;
#[cfg(test)]
mod hash_chains;
#[cfg(test)]
mod imprint_bytes;
#[cfg(test)]
mod imprints;
#[cfg(test)]
mod issued_signatures;
#[cfg(test)]
mod journal_faults;
#[cfg(test)]
mod journals;
#[cfg(test)]
mod locations;
#[cfg(test)]
mod logs;
#[cfg(test)]
mod merging;
#[cfg(test)]
mod mirrors;
#[cfg(test)]
mod named_schedules;
#[cfg(test)]
mod outside;
#[cfg(test)]
mod over_files;
#[cfg(test)]
mod proof_files;
#[cfg(test)]
mod publications;
#[cfg(test)]
mod publications_files;
#[cfg(test)]
mod read_signatures;
#[cfg(test)]
mod rows;
#[cfg(test)]
mod same;
#[cfg(test)]
mod schedule_texts;
#[cfg(test)]
mod schedules;
#[cfg(test)]
mod showing;
#[cfg(test)]
mod signatures;
#[cfg(test)]
mod text;
#[cfg(test)]
mod trees;
#[cfg(test)]
mod verifying;
#[cfg(test)]
mod ways;
#[cfg(test)]
mod words;
