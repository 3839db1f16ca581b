//! Numbers by name: the bits of the registers (ATA/ATAPI-6, Status, Error, Device and Device Control registers; Bus
//! Master IDE 1.0, command and status registers), the command bytes (ATA/ATAPI-6, command descriptions), and the size
//! of a sector. Beside them, which registers are the bus master's.

ghost use Rattle.std.specs.Prelude.{◌≡◌};
ghost use Rattle.ata_taskfile.specs.TaskFile.{has_bit, is_of_bus};

use crate::Reg;

/// Status: the device is at work, and takes no register but Device Control.
pub const BSY: u8 = 0x80;

/// Status: the device is ready for a command.
pub const DRDY: u8 = 0x40;

/// Status: shown beside DRDY, and with no meaning of its own (own: always so).
pub const DSC: u8 = 0x10;

/// Status: words wait in Data, or are wanted there.
pub const DRQ: u8 = 0x08;

/// Status: the last command failed, and Error says why.
pub const ERR: u8 = 0x01;

/// Status of a device that is at work, or in reset.
pub const STATUS_BUSY: u8 = BSY;

/// Status of a device whose block waits in Data, or is wanted there.
pub const STATUS_BLOCK: u8 = DRDY | DSC | DRQ;

/// Status of a device without a command in hand, whose last one failed.
pub const STATUS_FAILED: u8 = DRDY | DSC | ERR;

/// Status of a device without a command in hand, whose last one didn't fail.
pub const STATUS_IDLE: u8 = DRDY | DSC;

/// Error: the bytes of a sector can't be had.
pub const UNC: u8 = 0x40;

/// Error: the sectors aren't all on the device.
pub const IDNF: u8 = 0x10;

/// Error: the command was given up.
pub const ABRT: u8 = 0x04;

/// Device Control: the previous byte of a two-byte register is shown.
pub const HOB: u8 = 0x80;

/// Device Control: the device is held in reset.
pub const SRST: u8 = 0x04;

/// Device Control: the interrupt line stays low.
pub const NIEN: u8 = 0x02;

/// Device Control: the bits that have a meaning. The others are dropped when it is written.
pub const CONTROL_BITS: u8 = HOB | SRST | NIEN;

/// Device: an address is a sector's number.
pub const LBA: u8 = 0x40;

/// Device: the second device is meant, which isn't there.
pub const DEV: u8 = 0x10;

/// Device: bits 24 to 27 of a 28-bit address.
pub const ADDRESS_BITS: u8 = 0x0f;

/// Bus master command: a walk through the descriptor table begins, or goes on.
pub const START: u8 = 0x01;

/// Bus master command: the direction, 1 where the drive's bytes go to memory.
pub const INWARD: u8 = 0x08;

/// Bus master status: a walk was begun, and hasn't come to the table's end.
pub const ACTIVE: u8 = 0x01;

/// Bus master status: a walk met a descriptor that it can't follow.
pub const BUS_ERROR: u8 = 0x02;

/// Bus master status: the line rose.
pub const INTERRUPT: u8 = 0x04;

/// READ SECTOR(S).
pub const READ_SECTORS: u8 = 0x20;

/// READ SECTOR(S) EXT.
pub const READ_SECTORS_EXT: u8 = 0x24;

/// READ DMA.
pub const READ_DMA: u8 = 0xc8;

/// READ DMA EXT.
pub const READ_DMA_EXT: u8 = 0x25;

/// WRITE SECTOR(S).
pub const WRITE_SECTORS: u8 = 0x30;

/// WRITE SECTOR(S) EXT.
pub const WRITE_SECTORS_EXT: u8 = 0x34;

/// WRITE DMA.
pub const WRITE_DMA: u8 = 0xca;

/// WRITE DMA EXT.
pub const WRITE_DMA_EXT: u8 = 0x35;

/// READ VERIFY SECTOR(S).
pub const READ_VERIFY: u8 = 0x40;

/// READ VERIFY SECTOR(S) EXT.
pub const READ_VERIFY_EXT: u8 = 0x42;

/// FLUSH CACHE.
pub const FLUSH_CACHE: u8 = 0xe7;

/// FLUSH CACHE EXT.
pub const FLUSH_CACHE_EXT: u8 = 0xea;

/// IDENTIFY DEVICE.
pub const IDENTIFY_DEVICE: u8 = 0xec;

/// SET FEATURES.
pub const SET_FEATURES: u8 = 0xef;

/// SET FEATURES, the subcommand in Features: the write cache is turned on.
pub const ENABLE_WRITE_CACHE: u8 = 0x02;

/// SET FEATURES, the subcommand in Features: the transfer mode is that of Sector Count.
pub const SET_TRANSFER_MODE: u8 = 0x03;

/// The bytes of a sector.
pub const SECTOR_BYTES: usize = 512;

/// The words of a sector, which is the block that Data moves.
pub const BLOCK_WORDS: u16 = 256;

/// A bit of a byte is 1.
pub fn has_bit(bit: u8, byte: u8) -> bool
    ensures { result ≡ has_bit bit byte }
{
    byte & bit != 0
}

impl Reg {
    /// One of the two registers of the bus master, which aren't the task file's.
    pub fn is_of_bus(self) -> bool
        ensures { result ≡ is_of_bus self }
    {
        match self {
            Reg::BusCommand | Reg::BusStatus => true,
            Reg::Error
            | Reg::Count
            | Reg::Low
            | Reg::Mid
            | Reg::High
            | Reg::Device
            | Reg::Status
            | Reg::Alternate => false,
        }
    }
}
