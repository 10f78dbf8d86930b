// The raw sector call over the images of drives 1 and 2.
#![tactic(auto)]

ghost use Rattle.std.specs.Prelude.{◌≡◌, Some, IfOk};
ghost use Rattle.geometry.specs.Disk.{spot_of};
ghost use Rattle.drives.specs.Raw.{raw_refusal, raw_number, raw_sector};

use refusals::Reason;

// Where a sector begins in the image of its drive.
#[tactic(auto, unfolding(geometry::specs::Disk::spot_of, crate::specs::Raw::raw_refusal, crate::specs::Raw::is_image, crate::specs::Raw::is_drive))]
pub fn raw_place(
    one: &[u8],
    two: &[u8],
    drive: usize,
    track: usize,
    sector: usize,
) -> Result<usize, Reason>
    ensures refusal { raw_number result ≡ raw_refusal one.now two.now drive track sector }
    ensures place { IfOk result (λ p. spot_of track sector ≡ Some p) }
{
    if one.len() != geometry::IMAGE_SIZE || two.len() != geometry::IMAGE_SIZE {
        return Err(Reason::NotAnImage);
    }
    if drive < 1 || drive > 2 {
        return Err(Reason::NoSuchSector);
    }
    geometry::place(track, sector).ok_or(Reason::NoSuchSector)
}

// The 512 bytes of a sector of the chosen drive, uncopied.
pub fn raw_part<'a>(
    one: &'a [u8],
    two: &'a [u8],
    drive: usize,
    track: usize,
    sector: usize,
) -> Result<&'a [u8], Reason>
    ensures refusal { raw_number result ≡ raw_refusal one.now two.now drive track sector }
    ensures part { IfOk result (λ s. s.now ≡ raw_sector one.now two.now drive track sector) }
{
    let start = raw_place(one, two, drive, track, sector)?;
    let image = if drive == 1 { one } else { two };
    Ok(&image[start..start + 512])
}

// The same, and an empty part on a refusal.
pub fn raw_sector<'a>(
    one: &'a [u8],
    two: &'a [u8],
    drive: usize,
    track: usize,
    sector: usize,
) -> &'a [u8]
    ensures { result.now ≡ raw_sector one.now two.now drive track sector }
{
    match raw_part(one, two, drive, track, sector) {
        Ok(part) => part,
        Err(_) => &[],
    }
}
