#![tactic(auto)]

// The actions of `pcode.rs` that lowering emits.
ghost use Rattle.std.specs.Prelude.{◌≡◌, ◌+◌, ◌<◌, ◌≤◌};
ghost use Rattle.pcode.specs.Pcode.{row_of, moved};
ghost use Rattle.pcode.specs.Moves.{delta_of};

// An action without operands, by its code.
#[derive(Clone, Copy)]
pub enum Op {
    NextFrame,
    PrevFrame,
    Play,
    Stop,
    ToggleQuality,
    StopSounds,
    Subtract,
    Multiply,
    Divide,
    And,
    Or,
    Not,
    StringEquals,
    StringLength,
    StringExtract,
    Pop,
    ToInteger,
    GetVariable,
    SetVariable,
    StringAdd,
    GetProperty,
    SetProperty,
    CloneSprite,
    RemoveSprite,
    Trace,
    StartDrag,
    EndDrag,
    StringLess,
    Throw,
    CastOp,
    RandomNumber,
    MBStringLength,
    CharToAscii,
    AsciiToChar,
    GetTime,
    MBStringExtract,
    MBCharToAscii,
    MBAsciiToChar,
    Delete,
    Delete2,
    DefineLocal,
    CallFunction,
    Return,
    Modulo,
    NewObject,
    DefineLocal2,
    InitArray,
    InitObject,
    TypeOf,
    TargetPath,
    Add2,
    Less2,
    Equals2,
    ToNumber,
    ToString,
    PushDuplicate,
    GetMember,
    SetMember,
    Increment,
    Decrement,
    CallMethod,
    NewMethod,
    InstanceOf,
    Enumerate2,
    BitAnd,
    BitOr,
    BitXor,
    BitLShift,
    BitRShift,
    BitURShift,
    StrictEquals,
    Greater,
    StringGreater,
    Call,
}

// What a Push pushes. A string is its reference, a float its low and its high word.
#[derive(Clone, Copy)]
pub enum PushValue {
    String(u32),
    Null,
    Undefined,
    Register(u8),
    Boolean(bool),
    Float(u32, u32),
    Integer(i32),
    Constant(u32),
}

// A label's number, an action's position in its list, and a byte offset: none stands for another. Three types of a line each, where one with a type parameter
// would need three types to tell its uses apart.
#[derive(Clone, Copy)]
pub struct Label(pub u32);

#[derive(Clone, Copy)]
pub struct Position(pub u32);

#[derive(Clone, Copy)]
pub struct ByteOffset(pub u32);

// A change of the tracked stack size (`stack_delta`), which never falls below 0.
#[derive(Clone, Copy)]
pub enum Delta {
    Down(u32),
    Level,
    Up,
}

impl Delta {
    // The size that a size becomes.
    pub fn moved(self, size: u32) -> u32
        requires { size < 4294967295 }
        ensures value { result ≡ moved (delta_of self) size }
        ensures bound { result ≤ size + 1 }
    {
        match self {
            Delta::Down(down) => size.saturating_sub(down),
            Delta::Level => size,
            Delta::Up => size + 1,
        }
    }
}

// An action's code and what it does to the stack. `Op` is the enum of what stands here by its code, the byte that is written.
#[derive(Clone, Copy)]
pub struct Row {
    pub code: u32,
    pub delta: Delta,
}

impl Row {
    fn new(code: u32, delta: Delta) -> Row
        ensures { result ≡ record { code = code; delta = delta } }
    {
        Row { code, delta }
    }
}

// A table: each arm is a row, which `Row::new` writes shortly. The callers of CallFunction, CallMethod, InitArray, InitObject, NewMethod and StartDrag say their own delta. No From: its one law would join the two clauses,
// which proofs cite one by one.
pub fn row_of(o: Op) -> Row
    ensures code { result.code ≡ (row_of o).code }
    ensures delta { delta_of result.delta ≡ (row_of o).delta }
{
    match o {
        Op::NextFrame => Row::new(0x04, Delta::Level),
        Op::PrevFrame => Row::new(0x05, Delta::Level),
        Op::Play => Row::new(0x06, Delta::Level),
        Op::Stop => Row::new(0x07, Delta::Level),
        Op::ToggleQuality => Row::new(0x08, Delta::Level),
        Op::StopSounds => Row::new(0x09, Delta::Level),
        Op::Subtract => Row::new(0x0B, Delta::Down(1)),
        Op::Multiply => Row::new(0x0C, Delta::Down(1)),
        Op::Divide => Row::new(0x0D, Delta::Down(1)),
        Op::And => Row::new(0x10, Delta::Down(1)),
        Op::Or => Row::new(0x11, Delta::Down(1)),
        Op::Not => Row::new(0x12, Delta::Level),
        Op::StringEquals => Row::new(0x13, Delta::Down(1)),
        Op::StringLength => Row::new(0x14, Delta::Level),
        Op::StringExtract => Row::new(0x15, Delta::Down(2)),
        Op::Pop => Row::new(0x17, Delta::Down(1)),
        Op::ToInteger => Row::new(0x18, Delta::Level),
        Op::GetVariable => Row::new(0x1C, Delta::Level),
        Op::SetVariable => Row::new(0x1D, Delta::Down(2)),
        Op::StringAdd => Row::new(0x21, Delta::Down(1)),
        Op::GetProperty => Row::new(0x22, Delta::Down(1)),
        Op::SetProperty => Row::new(0x23, Delta::Down(3)),
        Op::CloneSprite => Row::new(0x24, Delta::Down(3)),
        Op::RemoveSprite => Row::new(0x25, Delta::Down(1)),
        Op::Trace => Row::new(0x26, Delta::Down(1)),
        Op::StartDrag => Row::new(0x27, Delta::Level),
        Op::EndDrag => Row::new(0x28, Delta::Level),
        Op::StringLess => Row::new(0x29, Delta::Down(1)),
        Op::Throw => Row::new(0x2A, Delta::Down(1)),
        Op::CastOp => Row::new(0x2B, Delta::Down(1)),
        Op::RandomNumber => Row::new(0x30, Delta::Level),
        Op::MBStringLength => Row::new(0x31, Delta::Level),
        Op::CharToAscii => Row::new(0x32, Delta::Level),
        Op::AsciiToChar => Row::new(0x33, Delta::Level),
        Op::GetTime => Row::new(0x34, Delta::Up),
        Op::MBStringExtract => Row::new(0x35, Delta::Down(2)),
        Op::MBCharToAscii => Row::new(0x36, Delta::Level),
        Op::MBAsciiToChar => Row::new(0x37, Delta::Level),
        Op::Delete => Row::new(0x3A, Delta::Down(2)),
        Op::Delete2 => Row::new(0x3B, Delta::Down(1)),
        Op::DefineLocal => Row::new(0x3C, Delta::Down(2)),
        Op::CallFunction => Row::new(0x3D, Delta::Level),
        Op::Return => Row::new(0x3E, Delta::Down(1)),
        Op::Modulo => Row::new(0x3F, Delta::Down(1)),
        Op::NewObject => Row::new(0x40, Delta::Up),
        Op::DefineLocal2 => Row::new(0x41, Delta::Down(1)),
        Op::InitArray => Row::new(0x42, Delta::Level),
        Op::InitObject => Row::new(0x43, Delta::Level),
        Op::TypeOf => Row::new(0x44, Delta::Level),
        Op::TargetPath => Row::new(0x45, Delta::Level),
        Op::Add2 => Row::new(0x47, Delta::Down(1)),
        Op::Less2 => Row::new(0x48, Delta::Down(1)),
        Op::Equals2 => Row::new(0x49, Delta::Down(1)),
        Op::ToNumber => Row::new(0x4A, Delta::Level),
        Op::ToString => Row::new(0x4B, Delta::Level),
        Op::PushDuplicate => Row::new(0x4C, Delta::Up),
        Op::GetMember => Row::new(0x4E, Delta::Down(1)),
        Op::SetMember => Row::new(0x4F, Delta::Down(3)),
        Op::Increment => Row::new(0x50, Delta::Level),
        Op::Decrement => Row::new(0x51, Delta::Level),
        Op::CallMethod => Row::new(0x52, Delta::Level),
        Op::NewMethod => Row::new(0x53, Delta::Level),
        Op::InstanceOf => Row::new(0x54, Delta::Down(1)),
        Op::Enumerate2 => Row::new(0x55, Delta::Level),
        Op::BitAnd => Row::new(0x60, Delta::Down(1)),
        Op::BitOr => Row::new(0x61, Delta::Down(1)),
        Op::BitXor => Row::new(0x62, Delta::Down(1)),
        Op::BitLShift => Row::new(0x63, Delta::Down(1)),
        Op::BitRShift => Row::new(0x64, Delta::Down(1)),
        Op::BitURShift => Row::new(0x65, Delta::Down(1)),
        Op::StrictEquals => Row::new(0x66, Delta::Down(1)),
        Op::Greater => Row::new(0x67, Delta::Down(1)),
        Op::StringGreater => Row::new(0x68, Delta::Down(1)),
        Op::Call => Row::new(0x9E, Delta::Down(1)),
    }
}
