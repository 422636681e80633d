//! The units that descriptors are made of (4.3.2 and 4.3.3).

pub const LONG: u16 = 0x4a; // `J`

pub const CLASS: u16 = 0x4c; // `L`

pub const CLASS_END: u16 = 0x3b; // `;`

pub const DIMENSION: u16 = 0x5b; // `[`

pub const PARAMETERS: u16 = 0x28; // `(`

pub const PARAMETERS_END: u16 = 0x29; // `)`

pub const VOID: u16 = 0x56; // `V`
