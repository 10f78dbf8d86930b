// Reports by value: the calls on lent bytes, as methods of a report that holds its bytes.
#![tactic(auto)]

ghost use Rattle.std.specs.Prelude.{◌≡◌, replicate};
ghost use Rattle.refusals.specs.Answers.{outcome_of, out};
ghost use Rattle.report_bytes.specs.Bytes.{add_disk_bytes, join_reports_bytes};

use refusals::Refused;

// A report: its bytes.
#[derive(Clone, Copy)]
pub struct Report {
    pub bytes: [u8; report_bytes::REPORT_BYTES],
}

impl Report {
    // The report over no disk.
    pub fn new() -> Report
        ensures { result.bytes ≡ replicate 496 0 }
    {
        Report {
            bytes: [0; report_bytes::REPORT_BYTES],
        }
    }

    // A disk added to the report: the disks in it after.
    pub fn add(&mut self, image: &[u8]) -> Result<usize, Refused>
        ensures { out (outcome_of result) self.new.bytes ≡ add_disk_bytes self.old.bytes image.now }
    {
        report_bytes::add(image, &mut self.bytes)
    }

    // Another report joined to it: the disks in both.
    pub fn join(&mut self, other: &Report) -> Result<usize, Refused>
        ensures { out (outcome_of result) self.new.bytes ≡ join_reports_bytes self.old.bytes other.now.bytes }
    {
        report_bytes::join(&mut self.bytes, &other.bytes)
    }
}
