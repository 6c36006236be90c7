#![tactic(auto)]

// A record's words as the enum of `hir`, and a function's record as a struct. Here the file's numbers become enums, so numbers stand in the arms. The enums
// are `hir`'s and the words `script_records`'s, neither of this crate: functions make the one of the other, since From can be written only beside one of the two.
ghost use Rattle.std.specs.Prelude.{◌≡◌, ◌<◌, get_or};
ghost use Rattle.hir.specs.declared.BinaryOperator as binary;
ghost use Rattle.script_records.specs.Kind.{number_of};
ghost use Rattle.script_records.specs.Layout.{words_of, supported};
ghost use Rattle.decode.specs.Decode.{signed, is_one, binary_operators, affix_of, unary_of, constant_of, condition_of, statement_kinds, expr_kinds, plain_of, record_of, name_of, function_of};

use hir::{
    Affix, BinaryOperator, ConstantKind, EnumeratorTarget, ExprKind, ForCondition, Record,
    SimpleKind, StatementKind, UnaryOperator,
};
use script_records::kind::Kind;
use script_records::layout::Row;

// A word in two's complement: the library's `cast_signed` under the definition's name.
#[tactic(auto, using(crate::proofs::DecodeLaws::cast_is_signed))]
pub fn to_signed(w: u32) -> i32
    ensures { result ≡ signed w }
{
    w.cast_signed()
}

static BINARY_OPERATORS: [BinaryOperator; 43] = [
    BinaryOperator::Add,
    BinaryOperator::Assign,
    BinaryOperator::AddAssign,
    BinaryOperator::Sub,
    BinaryOperator::SubAssign,
    BinaryOperator::Divide,
    BinaryOperator::DivideAssign,
    BinaryOperator::Multiply,
    BinaryOperator::MultiplyAssign,
    BinaryOperator::Modulo,
    BinaryOperator::ModuloAssign,
    BinaryOperator::BitAnd,
    BinaryOperator::BitAndAssign,
    BinaryOperator::BitOr,
    BinaryOperator::BitOrAssign,
    BinaryOperator::BitXor,
    BinaryOperator::BitXorAssign,
    BinaryOperator::BitShiftLeft,
    BinaryOperator::BitShiftLeftAssign,
    BinaryOperator::BitShiftRight,
    BinaryOperator::BitShiftRightAssign,
    BinaryOperator::BitShiftRightUnsigned,
    BinaryOperator::BitShiftRightUnsignedAssign,
    BinaryOperator::Equal,
    BinaryOperator::StrictEqual,
    BinaryOperator::NotEqual,
    BinaryOperator::StrictNotEqual,
    BinaryOperator::LessThan,
    BinaryOperator::LessThanEqual,
    BinaryOperator::GreaterThan,
    BinaryOperator::GreaterThanEqual,
    BinaryOperator::LogicalAnd,
    BinaryOperator::LogicalOr,
    BinaryOperator::InstanceOf,
    BinaryOperator::StringEqual,
    BinaryOperator::StringGreaterThan,
    BinaryOperator::StringGreaterThanEqual,
    BinaryOperator::StringLessThan,
    BinaryOperator::StringLessThanEqual,
    BinaryOperator::StringNotEqual,
    BinaryOperator::BooleanAnd,
    BinaryOperator::BooleanOr,
    BinaryOperator::StringAdd,
];

fn binary_operator(a: u32) -> BinaryOperator
    ensures { result ≡ get_or binary_operators a BinaryOperator.Add }
{
    BINARY_OPERATORS
        .get(a as usize)
        .copied()
        .unwrap_or(BinaryOperator::Add)
}

fn affix(b: u32) -> Affix
    ensures { result ≡ affix_of b }
{
    if b == 0 {
        Affix::Postfix
    } else {
        Affix::Prefix
    }
}

#[tactic(auto, unfolding(crate::specs::Decode::unary_of))]
fn unary_operator(a: u32, b: u32) -> UnaryOperator
    ensures { result ≡ unary_of a b }
{
    match a {
        0 => UnaryOperator::Sub,
        1 => UnaryOperator::Add,
        2 => UnaryOperator::BitNot,
        3 => UnaryOperator::Increment(affix(b)),
        4 => UnaryOperator::Decrement(affix(b)),
        _ => UnaryOperator::LogicalNot,
    }
}

#[tactic(auto, unfolding(crate::specs::Decode::constant_of))]
pub fn constant(r: Row) -> ConstantKind
    ensures { result ≡ constant_of (words_of r) }
{
    match r.a {
        0 => ConstantKind::String(r.b),
        1 => ConstantKind::Identifier(r.b),
        2 => ConstantKind::Float(r.b, r.c),
        3 => ConstantKind::Integer(to_signed(r.b)),
        4 => ConstantKind::Boolean(r.b != 0),
        _ => ConstantKind::Register((r.b % 256) as u8),
    }
}

#[tactic(auto, unfolding(crate::specs::Decode::condition_of))]
fn condition(r: Row) -> ForCondition
    ensures { result ≡ condition_of (words_of r) }
{
    if r.a != 0 {
        return ForCondition::Classic;
    }
    if r.b < 2 {
        return ForCondition::Enumerate(EnumeratorTarget::Variable {
            name: r.c,
            declare: r.b != 0,
        });
    }
    ForCondition::Enumerate(EnumeratorTarget::Register((r.c % 256) as u8))
}

// Not one of the kinds that refusal 3 names. A word that is no kind is none of them either, so the word is asked and no Kind made of it.
pub fn is_supported(kind: u32) -> bool
    ensures { result ≡ supported kind }
{
    const TRY: u32 = Kind::Try as u32;
    const WITH: u32 = Kind::With as u32;
    const GET_URL: u32 = Kind::GetUrl as u32;
    !matches!(kind, TRY..=WITH | GET_URL)
}

// A record of that kind: an arm for each kind.
#[tactic(auto, unfolding(crate::specs::Decode::record_of, crate::specs::Decode::plain_of, crate::specs::Decode::statement_kinds, crate::specs::Decode::expr_kinds, crate::specs::Decode::condition_of, crate::specs::Decode::constant_of))]
fn record_of_kind(kind: Kind, r: Row) -> Record
    ensures { result ≡ record_of (record { kind = number_of kind; a = r.a; b = r.b; c = r.c }) }
{
    match kind {
        Kind::Declare => Record::Statement(StatementKind::Declare(r.a)),
        Kind::Return => Record::Statement(StatementKind::Return),
        Kind::Throw => Record::Statement(StatementKind::Throw),
        Kind::Expr => Record::Statement(StatementKind::Expr),
        Kind::Block => Record::Statement(StatementKind::Block),
        Kind::ForIn => Record::Statement(StatementKind::ForIn(condition(r))),
        Kind::While => Record::Statement(StatementKind::While),
        Kind::If => Record::Statement(StatementKind::If),
        Kind::Break => Record::Statement(StatementKind::Break),
        Kind::Continue => Record::Statement(StatementKind::Continue),
        Kind::Switch => Record::Statement(StatementKind::Switch),
        Kind::Constant => Record::Expr(ExprKind::Constant(constant(r))),
        Kind::Call => Record::Expr(ExprKind::Call),
        Kind::New => Record::Expr(ExprKind::New),
        Kind::DuplicateMovieClip => Record::Expr(ExprKind::DuplicateMovieClip),
        Kind::AsciiToChar => Record::Expr(ExprKind::Simple(SimpleKind::AsciiToChar)),
        Kind::MBAsciiToChar => Record::Expr(ExprKind::Simple(SimpleKind::MBAsciiToChar)),
        Kind::CallFrame => Record::Expr(ExprKind::Simple(SimpleKind::CallFrame)),
        Kind::GetTime => Record::Expr(ExprKind::Simple(SimpleKind::GetTime)),
        Kind::Binary => Record::Expr(ExprKind::Binary(binary_operator(r.a))),
        Kind::Unary => Record::Expr(ExprKind::Unary(unary_operator(r.a, r.b))),
        Kind::Ternary => Record::Expr(ExprKind::Ternary),
        Kind::InitObject => Record::Expr(ExprKind::InitObject),
        Kind::InitArray => Record::Expr(ExprKind::InitArray),
        Kind::Field => Record::Expr(ExprKind::Field),
        Kind::TypeOf => Record::Expr(ExprKind::Simple(SimpleKind::TypeOf)),
        Kind::Delete => Record::Expr(ExprKind::Delete),
        Kind::Void => Record::Expr(ExprKind::Void),
        Kind::Function => Record::Expr(ExprKind::Function {
            name: r.a.checked_sub(1),
            registers: (r.b % 256) as u8,
            marks: (r.c % 512) as u16,
        }),
        Kind::GetVariable => Record::Expr(ExprKind::Simple(SimpleKind::GetVariable)),
        Kind::SetVariable => Record::Expr(ExprKind::Simple(SimpleKind::SetVariable)),
        Kind::GotoFrame => Record::Expr(ExprKind::GotoFrame(r.a != 0)),
        Kind::CastToInteger => Record::Expr(ExprKind::Simple(SimpleKind::CastToInteger)),
        Kind::CastToNumber => Record::Expr(ExprKind::Simple(SimpleKind::CastToNumber)),
        Kind::CastToString => Record::Expr(ExprKind::Simple(SimpleKind::CastToString)),
        Kind::CastToObject => Record::Expr(ExprKind::Simple(SimpleKind::CastToObject)),
        Kind::StringLength => Record::Expr(ExprKind::Simple(SimpleKind::StringLength)),
        Kind::MBStringLength => Record::Expr(ExprKind::Simple(SimpleKind::MBStringLength)),
        Kind::CharToAscii => Record::Expr(ExprKind::Simple(SimpleKind::CharToAscii)),
        Kind::MBCharToAscii => Record::Expr(ExprKind::Simple(SimpleKind::MBCharToAscii)),
        Kind::Substring => Record::Expr(ExprKind::Simple(SimpleKind::Substring)),
        Kind::MBSubstring => Record::Expr(ExprKind::Simple(SimpleKind::MBSubstring)),
        Kind::NextFrame => Record::Expr(ExprKind::Simple(SimpleKind::NextFrame)),
        Kind::PreviousFrame => Record::Expr(ExprKind::Simple(SimpleKind::PreviousFrame)),
        Kind::Play => Record::Expr(ExprKind::Simple(SimpleKind::Play)),
        Kind::Stop => Record::Expr(ExprKind::Simple(SimpleKind::Stop)),
        Kind::StopSounds => Record::Expr(ExprKind::Simple(SimpleKind::StopSounds)),
        Kind::StartDrag => Record::Expr(ExprKind::StartDrag(r.a != 0)),
        Kind::EndDrag => Record::Expr(ExprKind::Simple(SimpleKind::EndDrag)),
        Kind::GetTargetPath => Record::Expr(ExprKind::Simple(SimpleKind::GetTargetPath)),
        Kind::Trace => Record::Expr(ExprKind::Simple(SimpleKind::Trace)),
        Kind::RemoveSprite => Record::Expr(ExprKind::Simple(SimpleKind::RemoveSprite)),
        Kind::GetRandomNumber => Record::Expr(ExprKind::Simple(SimpleKind::GetRandomNumber)),
        Kind::GetProperty => Record::Expr(ExprKind::GetProperty(to_signed(r.a))),
        Kind::SetProperty => Record::Expr(ExprKind::SetProperty(to_signed(r.a))),
        Kind::ToggleQuality => Record::Expr(ExprKind::Simple(SimpleKind::ToggleQuality)),
        Kind::Absent => Record::Absent,
        Kind::List => Record::List(r.a),
        Kind::ObjectField => Record::ObjectField(r.a),
        Kind::Parameter => Record::Parameter {
            name: r.a,
            register: (r.b % 512) as u16,
        },
        Kind::Case => Record::Case,
        Kind::Default => Record::Default,
        Kind::Try
        | Kind::WaitForFrame
        | Kind::TellTarget
        | Kind::InlinePcode
        | Kind::With
        | Kind::GetUrl => Record::Other,
    }
}

// A record's words as an enum. It shares with script's `Form::from` the `match` on `try_from` alone: what each makes of a kind has its own function.
pub fn record_of(r: Row) -> Record
    ensures { result ≡ record_of (words_of r) }
{
    match Kind::try_from(r.kind) {
        Ok(kind) => record_of_kind(kind, r),
        Err(_) => Record::Other,
    }
}

// A function's record. Its name is the index of a string. The marks in declaration order: preload_this, suppress_this, preload_arguments, suppress_arguments, preload_super,
// suppress_super, preload_root, preload_parent, preload_global. They are flags by place, since they are read and written as bits one after the other, all nine:
// nine fields would be nine lines at each of those places.
#[derive(Clone, Copy)]
pub struct Function {
    pub name: Option<u32>,
    pub register_count: u8,
    pub marks: [bool; 9],
}

// The words of a function's record hold its name, its register count and its marks.
impl From<Row> for Function {
    ghost from_gives = { λ r f. f ≡ function_of (words_of r) };

    fn from(r: Row) -> Self {
        let mut marks = [false; 9];
        for (i, mark) in marks.iter_mut().enumerate() {
            *mark = r.c >> i & 1 != 0;
        }
        Function {
            name: r.a.checked_sub(1),
            register_count: (r.b % 256) as u8,
            marks,
        }
    }
}
