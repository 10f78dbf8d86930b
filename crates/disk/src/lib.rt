// The disk check, whole: the first refusal of the table in its order, and with it the used map. Beside it the release check,
// by the same pass.
#![tactic(auto)]

ghost use Rattle.std.specs.Prelude.{◌≡◌};
ghost use Rattle.refusals.specs.Order.{scan};
ghost use Rattle.refusals.specs.Answers.{reply_of};
ghost use Rattle.directory.specs.Places.{slots};
ghost use Rattle.directory.specs.Directory.{directory, live_among};
ghost use Rattle.disk.specs.View.{view};
ghost use Rattle.surveys.specs.Steps.{Surveyed};
ghost use Rattle.disk.specs.Check.{chain_at, check_by, check_disk, check_release, Examined};

use refusals::{Reason, Refused};
use surveys::Survey;

// Rows 10, 11 and 25 at all slots, of which `files` are live: past the last of these there is none to look at.
fn all_chains(image: &[u8], files: usize) -> Result<(), Refused>
    requires { files ≡ live_among (directory image.now) slots }
    ensures { reply_of result ≡ scan slots (chain_at (view image.now)) }
{
    let mut seen: usize = 0;
    let mut i: usize = 0;
    // No plainer: the loop ends on the files that were seen, so that no slot past the last live one is looked at.
    while seen < files {
        let s = directory::slot_at(image, i);
        i += 1;
        if slots::is_live(s) {
            seen += 1;
            headers::chain_pass_rows(image, s, i)?;
        }
    }
    Ok(())
}

// The check, or the release check, with the used map and the number of files of an accepted disk.
fn examine_by(image: &[u8], release: bool) -> Result<Survey, Refused>
    ensures { Surveyed (check_by release (view image.now)) image.now result }
{
    if image.len() != geometry::IMAGE_SIZE {
        return refusals::refuse(Reason::NotAnImage, 0);
    }
    if directory::has_bad_tracks(image) {
        return refusals::refuse(Reason::TracksOutOfRange, 0);
    }
    let found = surveys::survey_slots(image, release)?;
    all_chains(image, found.files)?;
    Ok(found)
}

// The check with the used map and the number of files of an accepted disk.
pub fn examine(image: &[u8]) -> Result<Survey, Refused>
    ensures { Examined image.now result }
{
    examine_by(image, false)
}

// The check.
pub fn check(image: &[u8]) -> Result<(), Refused>
    ensures { reply_of result ≡ check_disk image.now }
{
    examine(image)?;
    Ok(())
}

// The release check: it also refuses a carried kind with more sectors than its length needs.
pub fn check_release(image: &[u8]) -> Result<(), Refused>
    ensures { reply_of result ≡ check_release image.now }
{
    examine_by(image, true)?;
    Ok(())
}
