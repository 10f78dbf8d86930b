// Writes the listing of the disk image on standard input: the catalogue's text, and nothing else.
#![tactic(auto)]

fn main() {
    // Room for the directory's four tracks, the front of an image; what comes after them is not read.
    let mut input = [0u8; 40960];
    let got = io::read_full(0, &mut input);
    // Room for the longest text.
    let mut page = [0u8; 2048];
    if let Ok(n) = catalogue::catalogue(&input[..got], &mut page) {
        io::write_all(1, &page[..n]);
    }
}
