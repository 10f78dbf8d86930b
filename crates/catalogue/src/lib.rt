// The text of the listing program: a line for each live, unhidden slot and then the free count, or a refusal.
#![tactic(auto)]

ghost use Rattle.std.specs.Prelude.{◌≡◌};
ghost use Rattle.refusals.specs.Answers.{outcome_of, out};
ghost use Rattle.text_lines.specs.Written.{Wrote};
ghost use Rattle.directory.specs.Places.{slots};
ghost use Rattle.directory.specs.Directory.{label_of, directory};
ghost use Rattle.surveys.specs.Steps.{Surveyed};
ghost use Rattle.catalogue.specs.Text.{lines, more_tracks, reply_to, text, catalogue_of};

use refusals::{Reason, Refused};
use surveys::Survey;

// The lines of all slots, at the front of a page.
fn put_lines(page: &mut [u8], dir: &[u8]) -> usize
    ensures { Wrote page.old 0 (lines (directory dir.now) slots) page.new result }
{
    let mut at: usize = 0;
    for i in 0..directory::slots_read(dir) {
        at = text_lines::put_slot_line(page, at, i + 1, directory::slot_at(dir, i));
    }
    at
}

// Whether byte 255 of slot 1 tells directory tracks beyond four, or a number that there cannot be.
fn has_more_tracks(input: &[u8]) -> bool
    ensures { result ≡ more_tracks (label_of input.now 255) }
{
    let n = buffers::num_at(input, 255);
    n != 0 && n != 255
}

// What the directory is refused for, or its survey.
fn examine(input: &[u8]) -> Result<Survey, Refused>
    ensures { Surveyed (reply_to input.now) input.now result }
{
    if input.len() < 40960 {
        return refusals::refuse(Reason::NotAnImage, 0);
    }
    if has_more_tracks(input) {
        return refusals::refuse(Reason::TracksOutOfRange, 0);
    }
    surveys::survey_slots(input, false)
}

// The whole text, at the front of a page.
fn put_text(page: &mut [u8], input: &[u8]) -> usize
    ensures { Wrote page.old 0 (text input.now) page.new result }
{
    match examine(input) {
        Err(refused) => text_lines::put_refusal(page, refused),
        Ok(found) => {
            let at = put_lines(page, input);
            text_lines::put_free(page, at, surveys::free_of(found.used))
        }
    }
}

// The listing of the directory at the front of `input`, put to the front of `buf`: answers its length, or refusal 20
// where `buf` is too short for it. A refusal of the directory is such a text too.
pub fn catalogue(input: &[u8], buf: &mut [u8]) -> Result<usize, Refused>
    ensures { out (outcome_of result) buf.new ≡ catalogue_of input.now buf.old }
{
    let mut page = [0u8; 2048];
    let n = put_text(&mut page, input);
    if buf.len() < n {
        return refusals::refuse(Reason::BufferTooShort, 0);
    }
    buffers::copy_into(buf, 0, &page[..n]);
    Ok(n)
}
