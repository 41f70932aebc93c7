ghost use Rattle.std.specs.Prelude.{◌≡◌, ◌≤◌, ◌<◌, ◌+◌, ◌*◌, ◌^◌, length};
ghost use Rattle.ksi_calendar_files.specs.File.{first_second};

use ksi_imprint::Imprint;
use std::marker::Model;

/// How many seconds a full file has.
pub const FILE_SECONDS: u64 = 4096;

/// The roots of the seconds of a plan in one file. A contract sees a record of its parts.
#[derive(Drop)]
pub struct CalendarFile {
    plan: Imprint,
    start: u64,
    number: u64,
    roots: Vec<Imprint>,
}

impl Model for CalendarFile {
    ghost use Rattle.std.specs.List.{AllByRecursion};
    ghost use Rattle.std.specs.Prelude.{length};
    ghost use Rattle.ksi_imprint.specs.Imprints.{IsImprint};
    ghost use Rattle.ksi_calendar_files.specs.File.{Contents, IsBounded};

    ghost Value = { Contents };

    ghost view = { λ file. record { plan = file.plan; start = file.start; number = file.number; roots = file.roots.items } };

    ghost invariant = { λ file. IsBounded file.start file.number (length file.roots.items) × AllByRecursion IsImprint file.roots.items };
}

impl CalendarFile {
    ghost use Rattle.std.specs.List.{AllByRecursion};
    ghost use Rattle.ksi_imprint.specs.Imprints.{IsImprint};
    ghost use Rattle.ksi_calendar_files.specs.File.{IsBounded};

    /// The file of its parts.
    pub(crate) fn new(plan: Imprint, start: u64, number: u64, roots: Vec<Imprint>) -> Self
        requires bounded { IsBounded start number (length roots.items) }
        requires imprints { AllByRecursion IsImprint roots.items }
        ensures { result ≡ record { plan = plan; start = start; number = number; roots = roots.items } }
    {
        CalendarFile {
            plan,
            start,
            number,
            roots,
        }
    }

    /// The digest of the plan.
    pub fn plan(&self) -> Imprint
        ensures { result ≡ self.now.plan }
    {
        self.plan
    }

    /// The plan's first second.
    pub fn start(&self) -> u64
        ensures value { result ≡ self.now.start }
        ensures bounded { IsBounded self.now.start self.now.number (length self.now.roots) }
    {
        self.start
    }

    /// The file's number: it has the seconds from 4,096 times this number on.
    pub fn number(&self) -> u64
        ensures value { result ≡ self.now.number }
        ensures bounded { IsBounded self.now.start self.now.number (length self.now.roots) }
    {
        self.number
    }

    /// The second of the first root.
    pub fn first_second(&self) -> u64
        ensures { result ≡ first_second self.now.start self.now.number }
    {
        self.start.max(FILE_SECONDS * self.number)
    }

    /// Each root is an imprint. This function does nothing.
    pub fn has_imprints(&self)
        ensures { AllByRecursion IsImprint self.now.roots }
    {
        let _ = &self.roots;
    }

    /// The roots, which are not copied.
    pub fn roots(&self) -> &[Imprint]
        ensures { result.now ≡ self.now.roots }
    {
        &self.roots
    }
}
