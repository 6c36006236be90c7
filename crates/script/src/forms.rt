// What a record of each kind holds: its words and its children. A table of forms: the arms are values, which `words` and `plain` write shortly, and no steps; and
// where a word of the file says which, they are that word's numbers. Constants, unary operators and loops each have a function, since their words say it otherwise.
ghost use Rattle.std.specs.Prelude.{◌≡◌, get_or};
ghost use Rattle.script_records.specs.Kind.{number_of};
ghost use Rattle.script_records.specs.Layout.{words_of};
ghost use Rattle.script.specs.Forms.{form, below, form_of, for_in_form, constant_forms, unary_forms, unknown, is_class, limit};
ghost use Rattle.script.specs.FormCode.{form_as};

use script_records::kind::Kind;
use script_records::layout::Row;

// A number below some number, a string by its index, or such an index plus 1, with 0 for none.
#[derive(Clone, Copy)]
pub enum Scalar {
    Below(usize),
    String,
    OptionalString,
}

// A switch's elements are statements, Case and Default.
#[derive(Clone, Copy)]
pub enum Class {
    Statement,
    Expr,
    Field,
    Parameter,
    Element,
}

// A child: one of a class, one that may be absent, a list of a class, or StartDrag's constraints.
#[derive(Clone, Copy)]
pub enum Sort {
    One(Class),
    Optional(Class),
    List(Class),
    Constraints,
}

// The words a, b, c and the children; a list, whose a counts its children; a kind that refusal 3 names; no kind.
#[derive(Clone, Copy)]
pub enum Form {
    Words {
        a: Scalar,
        b: Scalar,
        c: Scalar,
        children: &'static [Sort],
    },
    Counted,
    Unsupported,
    Unknown,
}

const UNUSED: Scalar = Scalar::Below(1);

const BOOL: Scalar = Scalar::Below(2);

const BYTE: Scalar = Scalar::Below(0x100);

const OPTIONAL_BYTE: Scalar = Scalar::Below(0x101);

const MARKS: Scalar = Scalar::Below(0x200);

const OPERATOR: Scalar = Scalar::Below(43);

const WORD: Scalar = Scalar::Below(0x1_0000_0000);

const STATEMENT: Sort = Sort::One(Class::Statement);

const STATEMENTS: Sort = Sort::List(Class::Statement);

const EXPR: Sort = Sort::One(Class::Expr);

const EXPRS: Sort = Sort::List(Class::Expr);

fn words(a: Scalar, b: Scalar, c: Scalar, children: &'static [Sort]) -> Form
    ensures { form_as result ≡ form a b c children.now }
{
    Form::Words { a, b, c, children }
}

// No words are used.
fn plain(children: &'static [Sort]) -> Form
    ensures { form_as result ≡ form (below 1) (below 1) (below 1) children.now }
{
    words(UNUSED, UNUSED, UNUSED, children)
}

// ConstantKind, by its place.
fn constant_form(a: u32) -> Form
    ensures { form_as result ≡ get_or constant_forms a unknown }
{
    match a {
        0 | 1 => words(WORD, Scalar::String, UNUSED, &[]),
        2 => words(WORD, WORD, WORD, &[]),
        3 => words(WORD, WORD, UNUSED, &[]),
        4 => words(WORD, BOOL, UNUSED, &[]),
        5 => words(WORD, BYTE, UNUSED, &[]),
        _ => Form::Unknown,
    }
}

// UnaryOperator, by its place.
fn unary_form(a: u32) -> Form
    ensures { form_as result ≡ get_or unary_forms a unknown }
{
    match a {
        0 | 1 | 2 | 5 => words(WORD, UNUSED, UNUSED, &[EXPR]),
        3 | 4 => words(WORD, BOOL, UNUSED, &[EXPR]),
        _ => Form::Unknown,
    }
}

// Enumerate of a variable, a declared variable or a register, or Classic.
fn for_in_form(a: u32, b: u32) -> Form
    ensures { form_as result ≡ for_in_form a b }
{
    match (a, b) {
        (0, 0 | 1) => words(WORD, WORD, Scalar::String, &[EXPR, STATEMENT]),
        (0, 2) => words(WORD, WORD, BYTE, &[EXPR, STATEMENT]),
        (1, _) => words(
            WORD,
            UNUSED,
            UNUSED,
            &[Sort::Optional(Class::Statement), EXPRS, EXPRS, STATEMENT],
        ),
        _ => Form::Unknown,
    }
}

// The form of a record of that kind: an arm for each form.
#[tactic(auto, unfolding(crate::specs::Forms::form_of))]
fn form_of_kind(kind: Kind, r: Row) -> Form
    ensures { form_as result ≡ form_of (record { kind = number_of kind; a = r.a; b = r.b; c = r.c }) }
{
    match kind {
        Kind::Declare => words(
            Scalar::String,
            UNUSED,
            UNUSED,
            &[Sort::Optional(Class::Expr)],
        ),
        Kind::Return | Kind::Throw | Kind::InitArray => plain(&[EXPRS]),
        Kind::Block => plain(&[STATEMENTS]),
        Kind::While => plain(&[EXPR, STATEMENT]),
        Kind::If => plain(&[EXPR, STATEMENT, Sort::Optional(Class::Statement)]),
        Kind::Switch => plain(&[EXPR, Sort::List(Class::Element)]),
        Kind::Call | Kind::New => plain(&[EXPR, EXPRS]),
        Kind::DuplicateMovieClip | Kind::Ternary | Kind::Substring | Kind::MBSubstring => plain(&[
            EXPR, EXPR, EXPR,
        ]),
        Kind::Binary => words(OPERATOR, UNUSED, UNUSED, &[EXPR, EXPR]),
        Kind::InitObject => plain(&[Sort::List(Class::Field)]),
        Kind::Field | Kind::SetVariable | Kind::CastToObject => plain(&[EXPR, EXPR]),
        Kind::Function => words(
            Scalar::OptionalString,
            BYTE,
            MARKS,
            &[Sort::List(Class::Parameter), STATEMENTS],
        ),
        Kind::GotoFrame => words(BOOL, UNUSED, UNUSED, &[EXPR]),
        Kind::StartDrag => words(BOOL, UNUSED, UNUSED, &[EXPR, Sort::Constraints]),
        Kind::GetProperty => words(WORD, UNUSED, UNUSED, &[EXPR]),
        Kind::SetProperty => words(WORD, UNUSED, UNUSED, &[EXPR, EXPR]),
        Kind::List => Form::Counted,
        Kind::ObjectField => words(Scalar::String, UNUSED, UNUSED, &[EXPR]),
        Kind::Parameter => words(Scalar::String, OPTIONAL_BYTE, UNUSED, &[]),
        Kind::Break
        | Kind::Continue
        | Kind::GetTime
        | Kind::NextFrame
        | Kind::PreviousFrame
        | Kind::Play
        | Kind::Stop
        | Kind::StopSounds
        | Kind::EndDrag
        | Kind::ToggleQuality
        | Kind::Absent
        | Kind::Default => plain(&[]),
        Kind::Try
        | Kind::WaitForFrame
        | Kind::TellTarget
        | Kind::InlinePcode
        | Kind::With
        | Kind::GetUrl => Form::Unsupported,
        Kind::ForIn => for_in_form(r.a, r.b),
        Kind::Constant => constant_form(r.a),
        Kind::Unary => unary_form(r.a),
        Kind::Expr
        | Kind::AsciiToChar
        | Kind::MBAsciiToChar
        | Kind::CallFrame
        | Kind::TypeOf
        | Kind::Delete
        | Kind::Void
        | Kind::GetVariable
        | Kind::CastToInteger
        | Kind::CastToNumber
        | Kind::CastToString
        | Kind::StringLength
        | Kind::MBStringLength
        | Kind::CharToAscii
        | Kind::MBCharToAscii
        | Kind::GetTargetPath
        | Kind::Trace
        | Kind::RemoveSprite
        | Kind::GetRandomNumber
        | Kind::Case => plain(&[EXPR]),
    }
}

// The form of a record. It shares with `decode::record_of` the `match` on `try_from` alone: what each makes of a kind has its own function.
impl From<Row> for Form {
    ghost from_gives = { λ r f. form_as f ≡ form_of (words_of r) };

    fn from(r: Row) -> Self {
        match Kind::try_from(r.kind) {
            Ok(kind) => form_of_kind(kind, r),
            Err(_) => Form::Unknown,
        }
    }
}

const SWITCH: u32 = Kind::Switch as u32;

const CONSTANT: u32 = Kind::Constant as u32;

const TOGGLE_QUALITY: u32 = Kind::ToggleQuality as u32;

const OBJECT_FIELD: u32 = Kind::ObjectField as u32;

const PARAMETER: u32 = Kind::Parameter as u32;

const CASE: u32 = Kind::Case as u32;

const DEFAULT: u32 = Kind::Default as u32;

impl Class {
    // A kind of the class. The word is asked, since a class is a range of kinds, and a word that is no kind is in none.
    pub(crate) fn has(self, kind: u32) -> bool
        ensures { result ≡ is_class self kind }
    {
        match self {
            Class::Statement => kind <= SWITCH,
            Class::Expr => matches!(kind, CONSTANT..=TOGGLE_QUALITY),
            Class::Field => kind == OBJECT_FIELD,
            Class::Parameter => kind == PARAMETER,
            Class::Element => matches!(kind, 0..=SWITCH | CASE | DEFAULT),
        }
    }
}

impl Scalar {
    // The scalar is below this, in a file of so many strings.
    pub(crate) fn limit(self, strings: u32) -> usize
        ensures { result ≡ limit strings self }
    {
        match self {
            Scalar::Below(n) => n,
            Scalar::String => strings as usize,
            Scalar::OptionalString => strings as usize + 1,
        }
    }
}
