// Save while recording: a save whose body comes in pieces. Definitions and laws, and the record that is kept of a recording.
#![tactic(auto)]

// What is kept of a recording, of bounded size: a save's particulars, the used map and n as they were at opening, how many bytes
// came, and those that wait for the close: the first sector's body bytes, and the bytes of the last sector, which is being filled.
#[derive(Clone, Copy)]
pub struct Record {
    pub kind: usize,
    pub name: [u8; 10],
    pub page: usize,
    pub offset: usize,
    pub exec: [u8; 3],
    pub info: [u8; 11],
    pub used: [u8; 195],
    pub tracks: usize,
    pub long: usize,
    pub first: [u8; 501],
    pub last: [u8; 510],
}
