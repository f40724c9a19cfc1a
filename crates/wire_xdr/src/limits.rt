/// The greatest number of a unit.
pub const MAX_UNIT: u32 = u32::MAX;

/// How many numbers a unit has. A hyper is a high unit times this, and a low unit.
pub const UNIT_RANGE: u64 = 4294967296;

/// The greatest number of a hyper.
pub const MAX_HYPER: u64 = u64::MAX;

/// The greatest mode: nine bits.
pub const MAX_MODE: u32 = 511;

/// The greatest mask of replicas: five bits.
pub const MAX_MASK: u32 = 31;

/// The most bytes of a file, and of one write.
pub const MAX_DATA: u32 = 65536;

/// The fewest bytes of an attribute's name.
pub const MIN_ATTR_NAME: u32 = 6;

/// The most bytes of an attribute's name.
pub const MAX_ATTR_NAME: u32 = 64;

/// The most bytes of an attribute's value.
pub const MAX_ATTR_VALUE: u32 = 1024;

/// The most bytes of an item's name.
pub const MAX_ITEM_NAME: u32 = 255;

/// The most bytes of a volume's name.
pub const MAX_VOLUME_NAME: u32 = 64;

/// The most items of a list of attributes, directory items or rows.
pub const MAX_LIST: u32 = 65536;

/// The most cells of a request.
pub const MAX_CELLS: u32 = 4;

/// The most cells of an index.
pub const MAX_INDEX: u32 = 1048576;
