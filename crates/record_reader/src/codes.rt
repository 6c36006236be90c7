// The codes of the records that have data, and of Call, which has none. A code is a byte as it is read and the first word of an entry as it is left: an enum of the hundred
// codes would be made from the one number only to give the other.
use slice_words::code;

pub const GOTO_FRAME: u8 = code::GOTO_FRAME as u8;

pub const STORE_REGISTER: u8 = code::STORE_REGISTER as u8;

pub const CONSTANT_POOL: u8 = code::CONSTANT_POOL as u8;

pub const GOTO_LABEL: u8 = code::GOTO_LABEL as u8;

pub const DEFINE_FUNCTION_2: u8 = code::DEFINE_FUNCTION_2 as u8;

pub const PUSH: u8 = code::PUSH as u8;

pub const JUMP: u8 = code::JUMP as u8;

pub const DEFINE_FUNCTION: u8 = code::DEFINE_FUNCTION as u8;

pub const IF: u8 = code::IF as u8;

pub const CALL: u8 = 0x9e;

pub const GOTO_FRAME_2: u8 = code::GOTO_FRAME_2 as u8;
