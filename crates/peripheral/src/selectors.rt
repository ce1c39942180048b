// Selectors of the peripheral control unit's controls, by 002's names.

// GOOGXU_FRAME_STRATEGY
pub const FRAME_STRATEGY: u8 = 0x01;

// GOOGXU_OCCUPANCY_COUNTING_TOGGLE
pub const OCCUPANCY_TOGGLE: u8 = 0x03;

// GOOGXU_OCCUPANCY_COUNTING_READ
pub const OCCUPANCY_READING: u8 = 0x04;

// GOOGXU_STATUS_RESET
pub const STATUS_RESET: u8 = 0x06;

// bmControls: the bits of these four.
pub const CONTROLS: u32 = 0x2D;
