// What a parent looks at in a child's record.
ghost use Rattle.std.specs.Prelude.{◌≡◌, List, ℕ};
ghost use Rattle.lowering.specs.Meaning as meaning;
ghost use Rattle.tree.specs.Trees.{rec_of};
ghost use Rattle.operators.specs.Shapes.{kind_shape, root_shape, shape_literal};

use hir::{ConstantKind, ExprKind, Record};

// An expression before it is generated: the four shapes of the definition, of which Other is one. They say what the expression is: `leaves`
// asks for one of them alone, and `statement` for all.
#[derive(Clone, Copy)]
pub enum Shape {
    Constant(ConstantKind),
    Field,
    NamedFunction,
    Other,
}

impl From<ExprKind> for Shape {
    ghost from_gives = { λ kind shape. shape ≡ kind_shape kind };

    fn from(kind: ExprKind) -> Self {
        match kind {
            ExprKind::Constant(c) => Shape::Constant(c),
            ExprKind::Field => Shape::Field,
            ExprKind::Function { name: Some(_), .. } => Shape::NamedFunction,
            _ => Shape::Other,
        }
    }
}

impl From<Record> for Shape {
    ghost from_gives = { λ root shape. shape ≡ root_shape root };

    fn from(root: Record) -> Self {
        match root {
            Record::Expr(kind) => Shape::from(kind),
            _ => Shape::Other,
        }
    }
}

// The constants that negation and GotoFrame look at. They are values, of which the two make different things.
#[derive(Clone, Copy)]
pub enum Literal {
    String(u32),
    Integer(i32),
    Float(u32, u32),
}

// An Option, and no TryFrom, since it is no error that a record is none of these.
pub fn literal_of(root: Record) -> Option<Literal>
    ensures { result ≡ shape_literal (root_shape root) }
{
    match Shape::from(root) {
        Shape::Constant(ConstantKind::String(s)) => Some(Literal::String(s)),
        Shape::Constant(ConstantKind::Integer(n)) => Some(Literal::Integer(n)),
        Shape::Constant(ConstantKind::Float(low, high)) => Some(Literal::Float(low, high)),
        _ => None,
    }
}

// An optional child that is there.
pub fn is_present(root: Record) -> bool
    ensures { (F : List ℕ) → result ≡ meaning.present (rec_of F root) }
{
    !matches!(root, Record::Absent)
}
