//! Who talks on this network: the client, and the server with its major and minor address. AoE calls these two a shelf
//! and a slot as well.

/// The client's Ethernet address (own).
pub const CLIENT: [u8; 6] = [2, 0, 0, 0, 0, 1];

/// The server's Ethernet address (own).
pub const SERVER: [u8; 6] = [2, 0, 0, 0, 0, 2];

/// The server's major address (own).
pub const MAJOR: u16 = 1;

/// The major address of a request to every server (AoE r11, common header).
pub const ALL_MAJORS: u16 = 0xffff;

/// The server's minor address (own).
pub const MINOR: u8 = 1;

/// The minor address of a request to every server (AoE r11, common header).
pub const ALL_MINORS: u8 = 0xff;
