// Reports as the app lends them: numbers of four bytes each, low byte first, at the front of a buffer. A number is raised where
// it lies, so that a call copies nothing and a disk costs what it changes.
#![tactic(auto)]

ghost use Rattle.std.specs.Prelude.{◌≡◌, ◌+◌, ◌*◌, ◌^◌, ◌<◌, ◌≤◌, length, slice_index};
ghost use Rattle.buffers.specs.Bytes.{put};
ghost use Rattle.refusals.specs.Answers.{outcome_of, out};
ghost use Rattle.directory.specs.Places.{slots};
ghost use Rattle.directory.specs.Directory.{directory, live_among};
ghost use Rattle.disk.specs.View.{view};
ghost use Rattle.reports.specs.Numbers.{files_report, report_of, number_at};
ghost use Rattle.reports.specs.Calls.{disks_in, raised_at, raised};
ghost use Rattle.report_bytes.specs.Bytes.{report_numbers_in, four_of, Numbered, add_disk_bytes, join_reports_bytes};

use refusals::{Reason, Refused};

// The bytes of a report: 124 numbers, of which the last 13 are not used.
pub const REPORT_BYTES: usize = 496;

const NUMBERS: usize = 111;

// The most disks that a report is over.
const MOST_DISKS: usize = 65535;

// Where its numbers stand: the accepted disks, and then those refused by each number, from 1 to 32.
const ACCEPTED: usize = 0;

const REFUSED_END: usize = 33;

// Live files of kind 0 to 63, file sectors, free sectors, and files of class 0 to 11.
const KINDS: usize = 33;

const FILE_SECTORS: usize = 97;

const FREE_SECTORS: usize = 98;

const CLASSES: usize = 99;

// One of a report's numbers: four bytes, which the compiler makes one load.
fn number_at(bytes: &[u8], k: usize) -> u32
    requires { (k < 111) × (496 ≤ length bytes.now) }
    ensures { (result ≡ slice_index (report_numbers_in bytes.now) k) × (result < 2 ^ 32) }
{
    let at = 4 * k;
    u32::from_le_bytes([bytes[at], bytes[at + 1], bytes[at + 2], bytes[at + 3]])
}

// Puts a number's four bytes at a place.
fn put_four(bytes: &mut [u8], at: usize, x: u32)
    requires { at + 4 ≤ length bytes.old }
    ensures { bytes.new ≡ put bytes.old at (four_of x) }
{
    let four = x.to_le_bytes();
    bytes[at] = four[0];
    bytes[at + 1] = four[1];
    bytes[at + 2] = four[2];
    bytes[at + 3] = four[3];
}

// One of the numbers with more to it, modulo 2^32.
fn raise(bytes: &mut [u8], k: usize, by: u32)
    requires { (k < 111) × (496 ≤ length bytes.old) }
    ensures { Numbered bytes.old bytes.new (raised_at (report_numbers_in bytes.old) k by) }
{
    let sum = number_at(bytes, k).wrapping_add(by);
    put_four(bytes, 4 * k, sum);
}

// The files of a disk, of which there are so many, by their kinds and classes.
fn count_files(bytes: &mut [u8], image: &[u8], files: usize)
    requires { (496 ≤ length bytes.old) × (files ≡ live_among (directory image.now) slots) }
    ensures { Numbered bytes.old bytes.new (raised (report_numbers_in bytes.old) (number_at (files_report (directory image.now) slots))) }
{
    let mut seen: usize = 0;
    let mut i: usize = 0;
    // No plainer: the loop ends on the files that were seen, so that no slot past the last live one is looked at.
    while seen < files {
        let s = directory::slot_at(image, i);
        i += 1;
        if slots::is_live(s) {
            seen += 1;
            raise(bytes, KINDS + slots::kind_of(s), 1);
            raise(bytes, CLASSES + reports::class_of(slots::count_of(s)), 1);
        }
    }
}

// An accepted disk: one more of these, its file sectors and its free sectors.
fn count_accepted(bytes: &mut [u8], sectors: usize, free: usize)
    requires { (496 ≤ length bytes.old) × (sectors < 2 ^ 32) × (free < 2 ^ 32) }
    ensures { Numbered bytes.old bytes.new (raised_at (raised_at (raised_at (report_numbers_in bytes.old) 0 1) 97 sectors) 98 free) }
{
    raise(bytes, ACCEPTED, 1);
    raise(bytes, FILE_SECTORS, sectors as u32);
    raise(bytes, FREE_SECTORS, free as u32);
}

// A disk, by its check.
fn count_disk(bytes: &mut [u8], image: &[u8])
    requires { 496 ≤ length bytes.old }
    ensures { Numbered bytes.old bytes.new (raised (report_numbers_in bytes.old) (number_at (report_of (view image.now)))) }
{
    match disk::examine(image) {
        Err(r) => raise(bytes, r.reason.number(), 1),
        Ok(found) => {
            count_accepted(bytes, found.used.count, surveys::free_of(found.used));
            count_files(bytes, image, found.files);
        }
    }
}

// The disks in a report: accepted, and refused by each number.
fn disks_in(bytes: &[u8]) -> usize
    requires { 496 ≤ length bytes.now }
    ensures { (result ≡ disks_in (report_numbers_in bytes.now)) × (result ≤ 33 * 2 ^ 32) }
{
    let mut disks: usize = 0;
    for k in 0..REFUSED_END {
        disks += number_at(bytes, k) as usize;
    }
    disks
}

// A disk added to a report: the disks in it after.
pub fn add(image: &[u8], bytes: &mut [u8]) -> Result<usize, Refused>
    ensures { out (outcome_of result) bytes.new ≡ add_disk_bytes bytes.old image.now }
{
    if bytes.len() < REPORT_BYTES {
        return refusals::refuse(Reason::BufferTooShort, 0);
    }
    let disks = disks_in(bytes) + 1;
    if MOST_DISKS < disks {
        return refusals::refuse(Reason::ReportFull, 0);
    }
    count_disk(bytes, image);
    Ok(disks)
}

// The numbers of another report, added to those of one.
fn add_numbers(bytes: &mut [u8], other: &[u8])
    requires { (496 ≤ length bytes.old) × (496 ≤ length other.now) }
    ensures { Numbered bytes.old bytes.new (raised (report_numbers_in bytes.old) (λ k. slice_index (report_numbers_in other.now) k)) }
{
    for k in 0..NUMBERS {
        raise(bytes, k, number_at(other, k));
    }
}

// Another report joined to one: the disks in both.
pub fn join(bytes: &mut [u8], other: &[u8]) -> Result<usize, Refused>
    ensures { out (outcome_of result) bytes.new ≡ join_reports_bytes bytes.old other.now }
{
    if bytes.len() < REPORT_BYTES {
        return refusals::refuse(Reason::BufferTooShort, 0);
    }
    if other.len() < REPORT_BYTES {
        return refusals::refuse(Reason::BufferTooShort, 0);
    }
    let disks = disks_in(bytes) + disks_in(other);
    if MOST_DISKS < disks {
        return refusals::refuse(Reason::ReportFull, 0);
    }
    add_numbers(bytes, other);
    Ok(disks)
}
