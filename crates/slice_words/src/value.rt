// The types of pushed values. An index from 256 on makes a long constant. They are bytes of a record: an enum of them would be turned into a
// byte, or made of one, at each of its uses.
pub const STRING: u8 = 0;

pub const NULL: u8 = 2;

pub const UNDEFINED: u8 = 3;

pub const REGISTER: u8 = 4;

pub const BOOLEAN: u8 = 5;

pub const FLOAT: u8 = 6;

pub const INTEGER: u8 = 7;

pub const CONSTANT: u8 = 8;

pub const LONG_CONSTANT: u8 = 9;
