// The disk that is tried, built from the documents' own numbers: a carried file, one of kind 4, and one of kind 5.
// Slot 1, of kind 19, 4 bytes from page 29, offset 32,768 on: track 4, sector 1, which is map bit 0.
fn carried(image: &mut [u8]) {
    let rest = [0, 1, 4, 1, 1];
    points::disks::entry(image, 0, 19, b"CODE      ", &rest);
    let start_and_length = [29, 0, 128, 0, 4, 0];
    buffers::copy_into(image, 236, &start_and_length);
    let header = [19, 4, 0, 0, 128, 0, 0, 0, 29];
    buffers::copy_into(image, 40960, &header);
    buffers::copy_into(image, 40969, b"CODE");
}

// Slot 2, of kind 4: track 4, sectors 3 and 2, which are map bits 2 and 1. The header's first byte is not the slot's kind, and
// the slot's own page, offset, pages and length are all 255.
fn spectrum(image: &mut [u8]) {
    let rest = [0, 2, 4, 3, 6];
    points::disks::entry(image, 256, 4, b"SPECTRUM  ", &rest);
    let start_and_length = [255u8; 6];
    buffers::copy_into(image, 492, &start_and_length);
    let header = [3, 249, 1, 0, 64, 255, 255, 255, 255];
    buffers::copy_into(image, 41984, &header);
    buffers::copy_into(image, 41993, b"HEAD");
    points::exchange(image, 42494, [4, 2]);
    buffers::copy_into(image, 41472, b"TAILEND");
}

// Slot 3, of kind 5, with the same header: track 4, sector 4, which is map bit 3.
fn opentype(image: &mut [u8]) {
    let rest = [0, 1, 4, 4, 8];
    points::disks::entry(image, 512, 5, b"OPENTYPE  ", &rest);
    let header = [3, 4, 0, 0, 64, 255, 255, 255, 255];
    buffers::copy_into(image, 42496, &header);
}

pub fn three_files(image: &mut [u8]) {
    carried(image);
    spectrum(image);
    opentype(image);
}
