#![tactic(auto)]

// How an operator, a simple expression and a record are generated: the tables of `statement.rs`.
ghost use Rattle.std.specs.Prelude.{◌≡◌};
ghost use Rattle.lowering.specs.Operators.{plan, simple_action};
ghost use Rattle.operators.specs.Plans.{plan_of};

use hir::{BinaryOperator, SimpleKind};
use pcode::Op;

pub mod shape;

// The operands and an action, perhaps a Not, perhaps an assignment; or one of three others. The variants are the definition's and its table's; what each
// generates is in the ring of `statement`, which is above this crate.
#[derive(Clone, Copy)]
pub enum Plan {
    Trivial(Op),
    TrivialNot(Op),
    TrivialAssign(Op),
    Assign,
    LogicalAnd,
    LogicalOr,
}

impl From<BinaryOperator> for Plan {
    ghost from_gives = { λ o p. plan_of p ≡ plan o };

    fn from(o: BinaryOperator) -> Self {
        match o {
            BinaryOperator::Add => Plan::Trivial(Op::Add2),
            BinaryOperator::Assign => Plan::Assign,
            BinaryOperator::AddAssign => Plan::TrivialAssign(Op::Add2),
            BinaryOperator::Sub => Plan::Trivial(Op::Subtract),
            BinaryOperator::SubAssign => Plan::TrivialAssign(Op::Subtract),
            BinaryOperator::Divide => Plan::Trivial(Op::Divide),
            BinaryOperator::DivideAssign => Plan::TrivialAssign(Op::Divide),
            BinaryOperator::Multiply => Plan::Trivial(Op::Multiply),
            BinaryOperator::MultiplyAssign => Plan::TrivialAssign(Op::Multiply),
            BinaryOperator::Modulo => Plan::Trivial(Op::Modulo),
            BinaryOperator::ModuloAssign => Plan::TrivialAssign(Op::Modulo),
            BinaryOperator::BitAnd => Plan::Trivial(Op::BitAnd),
            BinaryOperator::BitAndAssign => Plan::TrivialAssign(Op::BitAnd),
            BinaryOperator::BitOr => Plan::Trivial(Op::BitOr),
            BinaryOperator::BitOrAssign => Plan::TrivialAssign(Op::BitOr),
            BinaryOperator::BitXor => Plan::Trivial(Op::BitXor),
            BinaryOperator::BitXorAssign => Plan::TrivialAssign(Op::BitXor),
            BinaryOperator::BitShiftLeft => Plan::Trivial(Op::BitLShift),
            BinaryOperator::BitShiftLeftAssign => Plan::TrivialAssign(Op::BitLShift),
            BinaryOperator::BitShiftRight => Plan::Trivial(Op::BitRShift),
            BinaryOperator::BitShiftRightAssign => Plan::TrivialAssign(Op::BitRShift),
            BinaryOperator::BitShiftRightUnsigned => Plan::Trivial(Op::BitURShift),
            BinaryOperator::BitShiftRightUnsignedAssign => Plan::TrivialAssign(Op::BitURShift),
            BinaryOperator::Equal => Plan::Trivial(Op::Equals2),
            BinaryOperator::StrictEqual => Plan::Trivial(Op::StrictEquals),
            BinaryOperator::NotEqual => Plan::TrivialNot(Op::Equals2),
            BinaryOperator::StrictNotEqual => Plan::TrivialNot(Op::StrictEquals),
            BinaryOperator::LessThan => Plan::Trivial(Op::Less2),
            BinaryOperator::LessThanEqual => Plan::TrivialNot(Op::Greater),
            BinaryOperator::GreaterThan => Plan::Trivial(Op::Greater),
            BinaryOperator::GreaterThanEqual => Plan::TrivialNot(Op::Less2),
            BinaryOperator::LogicalAnd => Plan::LogicalAnd,
            BinaryOperator::LogicalOr => Plan::LogicalOr,
            BinaryOperator::InstanceOf => Plan::Trivial(Op::InstanceOf),
            BinaryOperator::StringEqual => Plan::Trivial(Op::StringEquals),
            BinaryOperator::StringGreaterThan => Plan::Trivial(Op::StringGreater),
            BinaryOperator::StringGreaterThanEqual => Plan::TrivialNot(Op::StringLess),
            BinaryOperator::StringLessThan => Plan::Trivial(Op::StringLess),
            BinaryOperator::StringLessThanEqual => Plan::TrivialNot(Op::StringGreater),
            BinaryOperator::StringNotEqual => Plan::TrivialNot(Op::StringEquals),
            BinaryOperator::BooleanAnd => Plan::Trivial(Op::And),
            BinaryOperator::BooleanOr => Plan::Trivial(Op::Or),
            BinaryOperator::StringAdd => Plan::Trivial(Op::StringAdd),
        }
    }
}

// The action that a simple expression ends in. A function, and no `From`: both types are of other crates.
pub fn action_of(k: SimpleKind) -> Op
    ensures { result ≡ simple_action k }
{
    match k {
        SimpleKind::AsciiToChar => Op::AsciiToChar,
        SimpleKind::MBAsciiToChar => Op::MBAsciiToChar,
        SimpleKind::CallFrame => Op::Call,
        SimpleKind::GetTime => Op::GetTime,
        SimpleKind::TypeOf => Op::TypeOf,
        SimpleKind::GetVariable => Op::GetVariable,
        SimpleKind::SetVariable => Op::SetVariable,
        SimpleKind::CastToInteger => Op::ToInteger,
        SimpleKind::CastToNumber => Op::ToNumber,
        SimpleKind::CastToString => Op::ToString,
        SimpleKind::CastToObject => Op::CastOp,
        SimpleKind::StringLength => Op::StringLength,
        SimpleKind::MBStringLength => Op::MBStringLength,
        SimpleKind::CharToAscii => Op::CharToAscii,
        SimpleKind::MBCharToAscii => Op::MBCharToAscii,
        SimpleKind::Substring => Op::StringExtract,
        SimpleKind::MBSubstring => Op::MBStringExtract,
        SimpleKind::NextFrame => Op::NextFrame,
        SimpleKind::PreviousFrame => Op::PrevFrame,
        SimpleKind::Play => Op::Play,
        SimpleKind::Stop => Op::Stop,
        SimpleKind::StopSounds => Op::StopSounds,
        SimpleKind::EndDrag => Op::EndDrag,
        SimpleKind::GetTargetPath => Op::TargetPath,
        SimpleKind::Trace => Op::Trace,
        SimpleKind::RemoveSprite => Op::RemoveSprite,
        SimpleKind::GetRandomNumber => Op::RandomNumber,
        SimpleKind::ToggleQuality => Op::ToggleQuality,
    }
}
