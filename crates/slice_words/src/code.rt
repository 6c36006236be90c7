// The codes of entries, which are numbers since programs in other languages lend and read the list slice. An action's is that of its record; from LONG on a record has a length and data.
pub const LONG: u32 = 0x80;

pub const GOTO_FRAME: u32 = 0x81;

pub const STORE_REGISTER: u32 = 0x87;

pub const CONSTANT_POOL: u32 = 0x88;

pub const GOTO_LABEL: u32 = 0x8c;

pub const JUMP: u32 = 0x99;

pub const IF: u32 = 0x9d;

pub const GOTO_FRAME_2: u32 = 0x9f;

pub const FUNCTION: u32 = 0x100;

pub const MARK: u32 = 0x101;

// The first value of a Push, and each later one, which has these codes from LATER_VALUE on.
pub const FIRST_VALUE: u32 = 0x110;

pub const STRING: u32 = 0x110;

pub const NULL: u32 = 0x112;

pub const UNDEFINED: u32 = 0x113;

pub const REGISTER: u32 = 0x114;

pub const BOOLEAN: u32 = 0x115;

pub const FLOAT: u32 = 0x116;

pub const INTEGER: u32 = 0x117;

pub const CONSTANT: u32 = 0x118;

pub const LATER_VALUE: u32 = 0x120;

// Of records alone: a Push stands for the entries of its values, and the two others for FUNCTION.
pub const PUSH: u32 = 0x96;

pub const DEFINE_FUNCTION: u32 = 0x9b;

pub const DEFINE_FUNCTION_2: u32 = 0x8e;
