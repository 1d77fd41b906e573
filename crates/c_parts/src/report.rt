//! The report of a lane as C sees it.
ghost use Rattle.std.specs.Prelude.{◌≡◌};
ghost use Rattle.c_parts.specs.Reports.{as_report, no_report};

use lock_model::LaneReport;

/// What the locks of a lane were, and how many of the words that they cover are wrong.
#[repr(C)]
#[derive(Clone, Copy)]
pub struct Report {
    /// Declared locks.
    pub locks: u64,
    /// 1 where a lock was declared, else 0.
    pub has_first: u64,
    /// The bit position of the first declaring Sync; 0 where no lock was declared.
    pub first: u64,
    /// Declared locks that were lost.
    pub lost: u64,
    /// Losses before a declaration and searches that were given up.
    pub unframed: u64,
    /// Bad words that locks cover.
    pub bad: u64,
    /// Sync words that are wrong.
    pub sync: u64,
    /// Scrambler State words that are not that of the running key.
    pub state: u64,
    /// Diagnostic words that are not right.
    pub diag: u64,
}

/// A report of nothing.
pub fn no_report() -> Report
    ensures { result ≡ no_report }
{
    Report {
        locks: 0,
        has_first: 0,
        first: 0,
        lost: 0,
        unframed: 0,
        bad: 0,
        sync: 0,
        state: 0,
        diag: 0,
    }
}

/// A report as C sees it.
pub fn as_report(report: &LaneReport) -> Report
    ensures { result ≡ as_report report.now }
{
    let (has_first, first) = match report.first {
        Some(first) => (1, first),
        None => (0, 0),
    };
    Report {
        locks: report.locks,
        has_first,
        first,
        lost: report.lost,
        unframed: report.unframed,
        bad: report.bad,
        sync: report.sync,
        state: report.state,
        diag: report.diag,
    }
}
