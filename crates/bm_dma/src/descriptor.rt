//! One descriptor of the table.

ghost use Rattle.std.specs.Prelude.{◌≡◌, ◌+◌, ◌==◌, ◌≤◌, ◌&&◌, length, drop};
ghost use Rattle.bm_dma.specs.Descriptor.{bytes_meant, descriptor_in, is_good};

use byteorder::{ByteOrder, LittleEndian};

/// How many bytes a descriptor has (Bus Master IDE 1.0, descriptor table).
pub(crate) const DESCRIPTOR_BYTES: usize = 8;

/// The mark of the table's end in a descriptor's last word (Bus Master IDE 1.0, descriptor table).
pub(crate) const END_OF_TABLE: u16 = 0x8000;

/// A stretch of memory, as a descriptor names it.
#[derive(Clone, Copy)]
pub(crate) struct Descriptor {
    /// The address of its first byte.
    pub base: u32,
    /// How many bytes it has.
    pub count: u32,
    /// It ends the table.
    pub is_last: bool,
}

impl Descriptor {
    // The descriptor at this address.
    pub(crate) fn read(memory: &[u8], address: usize) -> Descriptor
        requires { address + DESCRIPTOR_BYTES ≤ length memory.now }
        ensures fields { result ≡ descriptor_in (drop address memory.now) }
    {
        let bytes = &memory[address..];
        Descriptor {
            base: LittleEndian::read_u32(bytes),
            count: bytes_meant(LittleEndian::read_u16(&bytes[4..])),
            is_last: LittleEndian::read_u16(&bytes[6..]) & END_OF_TABLE != 0,
        }
    }

    // Whether it isn't bad, in a memory of so many bytes.
    pub(crate) fn is_good(&self, size: usize) -> bool
        ensures good { result ≡ is_good self.now size }
    {
        self.base % 2 == 0
            && self.count % 2 == 0
            && self.base as usize + self.count as usize <= size
    }

    // Whether it ends the table, with its first so many bytes.
    pub(crate) fn ends_table_at(&self, bytes: usize) -> bool
        ensures last { result ≡ (self.now.is_last && (self.now.count == bytes)) }
    {
        self.is_last && self.count as usize == bytes
    }
}

fn bytes_meant(count: u16) -> u32
    ensures count { result ≡ bytes_meant count }
{
    match count {
        0 => 65_536,
        _ => count as u32,
    }
}
