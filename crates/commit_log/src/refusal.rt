// Why a log refuses a call.
use archive_file::ScanNo;

/// Why the log of a plant is not opened.
#[derive(Clone, Copy, Debug, PartialEq, Eq)]
pub enum LogNo {
    /// A call of the device failed.
    DeviceFault,
    /// The byte at `at`, the first of a field, breaks the layout. It is `None` if the device ends there.
    Damaged { at: u64, byte: Option<u8> },
    /// The device is that of another plant. `at` is the place of the first byte in which the two texts differ. If one
    /// text is the beginning of the other, it is the length of the shorter one.
    OtherPlant { at: u32 },
    /// The rows on the device, together with the puts that there should be room for, are more than 4,000,000. `rows` is
    /// how many they are.
    TooMany { rows: u64 },
    /// There was no memory; or the device is new, and the plant's text has 2^32 bytes or more.
    WantOfMemory,
}

/// A device that was not opened, and why.
#[derive(Drop)]
pub struct LogFail<D> {
    /// The device that was passed in.
    pub dev: D,
    /// Why it was not opened.
    pub why: LogNo,
}

/// Why a row is not appended.
#[derive(Clone, Copy, Debug, PartialEq, Eq)]
pub enum PutRowNo {
    /// The plant has no such tag; it has `tags` tags.
    NoTag { tags: u32 },
    /// An earlier commit returned DeviceFault.
    Broken,
    /// The log has no room for another put; `room` is how many it had room for.
    RoomFull { room: u32 },
}

/// Why nothing is acknowledged.
#[derive(Clone, Copy, Debug, PartialEq, Eq)]
pub enum LogCommitNo {
    /// An earlier commit returned DeviceFault.
    Broken,
    /// A call of the device failed. The device has to be opened again before it is used.
    DeviceFault,
    /// There was no memory, or the block would end beyond 2^64 bytes. No call was made, and the log is unchanged.
    WantOfMemory,
}

impl From<ScanNo> for LogNo {
    ghost use Rattle.std.specs.Prelude.{◌≡◌};
    ghost use Rattle.commit_log.specs.Openings.{refusal_of};

    ghost from_gives = { λ why no. no ≡ refusal_of why };

    fn from(why: ScanNo) -> LogNo {
        match why {
            ScanNo::DeviceFault => LogNo::DeviceFault,
            ScanNo::Damaged { at, byte } => LogNo::Damaged { at, byte },
            ScanNo::WantOfMemory => LogNo::WantOfMemory,
        }
    }
}
