// Why a book refuses a call.

/// Why a group is not refreshed.
#[derive(Clone, Copy, Debug, PartialEq, Eq)]
pub enum RefreshNo {
    /// The version of an input is above the number of records that its tag has acknowledged.
    Ahead {
        input: u32,
        version: u32,
        records: u32,
    },
    /// The sheet would have more cells (complete windows times calculations) than it may have.
    CellLimit {
        cells: u64,
    },
    /// All copies together would have more records than a sheet may have.
    CopyLimit {
        records: u64,
    },
    /// No memory was found.
    WantOfMemory,
}

/// Why a group is not saved.
#[derive(Clone, Copy, Debug, PartialEq, Eq)]
pub enum SaveNo {
    /// An earlier save returned `DeviceFault`.
    Broken,
    /// A call of the device failed. The device has to be opened again before it is used.
    DeviceFault,
    /// No memory was found, or the number or the place of the save is past the end of its type. The device was not
    /// called.
    WantOfMemory,
}

/// Why a group's device is not opened.
#[derive(Clone, Copy, Debug, PartialEq, Eq)]
pub enum LoadNo {
    /// A call of the device failed.
    DeviceFault,
    /// The byte at `at`, the first of a field, breaks the layout. `byte` is `None` if the device ends there.
    Damaged {
        at: u64,
        byte: Option<u8>,
    },
    /// The saved version of an input is above the number of records that its tag recovered. This is the first such
    /// input.
    Ahead {
        input: u32,
        version: u32,
        records: u32,
    },
    /// A saved row does not have exactly one value for each complete window. `windows` is how many windows are
    /// complete, and `rows` is how many values the first such row has.
    Shape {
        windows: u64,
        rows: u64,
    },
    /// No memory was found.
    WantOfMemory,
}

/// A device that was not opened, and why.
#[derive(Drop)]
pub struct LoadFail<D> {
    pub dev: D,
    pub why: LoadNo,
}
