#![tactic(auto)]

// Steps that emit, but generate no part of the tree.
ghost use Rattle.std.specs.Prelude.{◌≡◌, List, [], IfSome, option_map, unwrap_or, false, cond, not, ◌&&◌, ◌||◌, ℕ, ◌+◌, ◌-◌, ◌*◌, ◌%◌, ◌<◌, ◌≤◌, T, ltb, eqb, length};
ghost use Rattle.std.specs.Int.{from_bool};
ghost use Rattle.std.specs.Option.{option_map_or};
ghost use Rattle.pcode.specs.Pcode.{Value, moved, Integer, Float};
ghost use Rattle.pcode.specs.declared.Op.TheVariants.{Play};
ghost use Rattle.script_records.specs.Layout.{layout_of, string_at};
ghost use Rattle.decode.specs.Numbers.{unsigned};
ghost use Rattle.script.specs.Resolve.{constant_over, target_over};
ghost use Rattle.lowering.specs.Builder.{when, name_delta};
ghost use Rattle.lowering.specs.Builder as steps;
ghost use Rattle.lowering.specs.Access as access;
ghost use Rattle.hir.specs.Tree.{Forest};
ghost use Rattle.lowering.specs.Meaning.{Meaning, param, hoisted, is_named, shape_of, kid};
ghost use Rattle.lowering.specs.Statement as statement;
ghost use Rattle.list_slice.specs.File.{names_string, text_in};
ghost use Rattle.tree.specs.Trees.{rec_of, is_labelled, is_case, meant};
ghost use Rattle.tree.specs.Within.{constant_named, target_named, record_named};
ghost use Rattle.tree.specs.Handle.{meanings_of, kid_of, list_of};
ghost use Rattle.builder.specs.Runs.{Runs};
ghost use Rattle.constants.specs.Acts.{Acts};
ghost use Rattle.access.specs.Accesses.{access_of};
ghost use Rattle.rows.specs.Rows.{label_of, any_hoisted};
ghost use Rattle.leaves.specs.Args.{Pushes};

use access::Access;
use builder::builder::CodeBuilder;
use codegen_state::Stop;
use constants::context::ScriptContext;
use decode::constant;
use hir::{Affix, ConstantKind, EnumeratorTarget, Record, StatementKind};
use operators::shape::Shape;
use pcode::{Label, Op, PushValue};
use script_records::kind::Kind;
use script_records::layout::ScriptFile;
use script_records::part::Part;
use slice_words::Param;
use tree::{Counts, Element, Trees};

// An assignment whose value is discarded, or wanted. The flag is a value that the callers were given: a closure for the step would be chosen by the same `if`, at
// each of the calls.
pub fn assign_value(builder: &mut CodeBuilder, discard: bool, access: Access)
    ensures { (F : List ℕ) → Runs F (statement.assign_value discard (access_of access)) builder.old tt builder.new }
{
    if discard {
        access.set_value(builder);
    } else {
        access.get_and_set_value(builder);
    }
}

// A constant as an expression: a literal needs no access. By `for_constant` and `get_value` each literal of a long row would make one to be taken apart again.
pub fn read_constant(context: &mut ScriptContext, c: ConstantKind)
    requires file_len_bound { length context.old.script.bytes.now ≤ 1048576 }
    requires t { T (constant_named context.old.script.bytes.now c) }
    ensures { let F = context.old.script.bytes.now in
        Acts (steps.◌>>=◌ (access.for_constant (constant_over (string_at F (layout_of F)) c)) access.get_value) context.old tt context.new }
{
    match c {
        ConstantKind::String(s) => context.push_string(s),
        ConstantKind::Identifier(s) => {
            let access = Access::for_identifier(context, s);
            access.get_value(&mut context.builder);
        }
        ConstantKind::Float(low, high) => context.builder.push(PushValue::Float(low, high)),
        ConstantKind::Integer(n) => context.builder.push(PushValue::Integer(n)),
        ConstantKind::Boolean(x) => context.builder.push(PushValue::Boolean(x)),
        ConstantKind::Register(r) => context.builder.push(PushValue::Register(r)),
    }
}

// Arguments run from the last to the first: the constants among the last of them are pushed here, without a call for each expression, and Voids generate
// nothing. What is left is still to be generated. A Void is asked for nothing but its kind, since a row may be long and have Voids alone.
pub fn push_constants<'a>(t: &Trees<'a>, context: &mut ScriptContext) -> Trees<'a>
    requires { context.old.script ≡ t.now.script }
    ensures { Pushes t.now context.old result context.new }
{
    for tree in *t {
        let kind = tree.kind();
        if kind == Kind::Void as u32 {
            continue;
        }
        if context.builder.state.refused.is_some() {
            return tree;
        }
        if kind != Kind::Constant as u32 {
            return tree;
        }
        let row = tree.script.known_row(tree.part.end - 1);
        read_constant(context, constant(row));
    }
    Trees {
        script: t.script,
        part: Part {
            end: t.part.end - t.part.n,
            n: 0,
        },
    }
}

// Break and Continue without a label emit nothing.
pub fn jump_to(builder: &mut CodeBuilder, target: Option<Label>)
    ensures { (F : List ℕ) → Runs F (statement.jump_to (label_of target)) builder.old tt builder.new }
{
    if let Some(label) = target {
        builder.jump(label);
    }
}

// The variable or register of a loop over an object's names gets register 0.
pub fn gen_target(context: &mut ScriptContext, target: EnumeratorTarget)
    requires file_len_bound { length context.old.script.bytes.now ≤ 1048576 }
    requires t { T (target_named context.old.script.bytes.now target) }
    ensures { let F = context.old.script.bytes.now in
        Acts (statement.gen_target (target_over (string_at F (layout_of F)) target)) context.old tt context.new }
{
    match target {
        EnumeratorTarget::Variable { name, declare } => {
            if declare {
                context.push_string(name);
                context.builder.push(PushValue::Register(0));
                context.builder.action(Op::DefineLocal);
                return;
            }
            let access = Access::for_identifier(context, name);
            context.builder.push(PushValue::Register(0));
            access.set_value(&mut context.builder);
        }
        EnumeratorTarget::Register(r) => {
            context.builder.push(PushValue::Register(0));
            context.builder.store_register(r);
            context.builder.action(Op::Pop);
        }
    }
}

// -2147483648 has no negative: `checked_neg` tells it.
pub fn negate_integer(builder: &mut CodeBuilder, n: i32)
    ensures { (F : List ℕ) → Runs F (statement.negate_integer (unsigned n) (eqb (unsigned n) 0x8000_0000)) builder.old tt builder.new }
{
    match n.checked_neg() {
        Some(m) => builder.push(PushValue::Integer(m)),
        None => builder.refuse(Stop::Negation),
    }
}

// The sign is the highest bit.
pub fn negate_float(builder: &mut CodeBuilder, low: u32, high: u32)
    ensures { (F : List ℕ) → Runs F (steps.push (Float ((low + 0x1_0000_0000 * high + 0x8000_0000_0000_0000) % 0x1_0000_0000_0000_0000))) builder.old tt builder.new }
{
    let flipped = high.wrapping_add(0x8000_0000);
    builder.push(PushValue::Float(low, flipped));
}

// A GotoFrame's number: 0 stays 0, any other is one less, and of that the low 16 bits count.
pub fn frame_of(n: i32) -> u32
    ensures { result ≡ statement.frame (unsigned n) }
{
    n.cast_unsigned().saturating_sub(1) % 65536
}

// The flag is the record's own, and both callers have it as a value: without this function the `if` would stand in each.
pub fn play_if(builder: &mut CodeBuilder, play: bool)
    ensures { (F : List ℕ) → Runs F (when play (steps.action Play)) builder.old tt builder.new }
{
    if play {
        builder.action(Op::Play);
    }
}

// The number of a list's trees.
pub fn push_count(builder: &mut CodeBuilder, n: u32)
    ensures { (F : List ℕ) → Runs F (steps.push (Integer n)) builder.old tt builder.new }
{
    builder.push(PushValue::Integer(n.cast_signed()));
}

// From the second Case on the target is taken from register 0.
pub fn push_if(builder: &mut CodeBuilder, cases: u32)
    ensures { (F : List ℕ) → Runs F (when (ltb 0 cases) (steps.push (Value.Register 0))) builder.old tt builder.new }
{
    if 0 < cases {
        builder.push(PushValue::Register(0));
    }
}

// An object field's key, a parameter's name; any other record has no name.
pub fn name_of(root: Record) -> u32
    ensures { (F : List ℕ) (i : ℕ) → length F ≤ 1048576 → T (record_named F i root) → (text_in F result ≡ (param (rec_of F root)).name) × T (names_string F result) }
{
    Param::from(root).name
}

// A statement that is an expression.
fn is_expr(root: Record) -> bool
    ensures { (F : List ℕ) (kids : Forest Meaning) → hoisted (rec_of F root) kids ≡ (result && is_named (shape_of (kid 0 kids).rec)) }
{
    match root {
        Record::Statement(kind) => matches!(kind, StatementKind::Expr),
        _ => false,
    }
}

// A named function expression that is a whole statement.
fn is_named(t: &Trees) -> bool
    ensures { result ≡ hoisted (kid_of t.now 0).rec (list_of t.now 0) }
{
    let node = t.node();
    if !is_expr(node.root) {
        return false;
    }
    let inner = node.children.node();
    matches!(Shape::from(inner.root), Shape::NamedFunction)
}

// Whether a statement can be hoisted. Most can not, which their kind tells, and most of those that are expressions are no functions, which the kind
// of the record before theirs tells.
fn may_be_hoisted(t: &Trees) -> bool
    ensures { result ≡ false → false ≡ hoisted (kid_of t.now 0).rec (list_of t.now 0) }
{
    if t.kind() != Kind::Expr as u32 {
        return false;
    }
    if t.part.end < 2 {
        return false;
    }
    t.script.known_row(t.part.end - 2).kind == Kind::Function as u32
}

pub fn is_hoisted(t: &Trees) -> bool
    ensures { result ≡ hoisted (kid_of t.now 0).rec (list_of t.now 0) }
{
    if !may_be_hoisted(t) {
        return false;
    }
    is_named(t)
}

// Whether some tree of a row is hoisted: most rows have none. Not inlined, as `rows::ends::ends_of`.
#[inline(never)]
pub fn has_hoisted(row: &Trees) -> bool
    ensures { result ≡ any_hoisted (meanings_of row.now) }
{
    for tree in *row {
        if is_hoisted(&tree) {
            return true;
        }
    }
    false
}

// What counts a switch's labels and its cases: one `matches!` each, and a function over the variants that count would only wrap it.
pub fn is_labelled(e: Element) -> bool
    ensures { from_bool result ≡ is_labelled (meant e) }
{
    matches!(e, Element::Case | Element::Default)
}

pub fn is_case(e: Element) -> bool
    ensures { from_bool result ≡ is_case (meant e) }
{
    matches!(e, Element::Case)
}

// A function leaves a value if it has no name, or an empty one.
pub fn leaves_value(script: &ScriptFile, name: Option<u32>) -> bool
    requires { script.now.layout ≡ layout_of script.now.bytes.now }
    ensures { let F = script.now.bytes.now in
        (z : ℕ) → moved (name_delta (option_map_or (string_at F (layout_of F)) name [])) z ≡ z + from_bool result }
{
    match name {
        Some(number) => script.string(number as usize).is_empty(),
        None => true,
    }
}

// The label of a switch's last Default, else its end.
pub fn default_label(end: u32, first: u32, n: Counts) -> u32
    requires labels_bound { first + n.labels < 0x1_0000_0000 }
    requires from_default_bound { IfSome n.from_default (λ k. k ≤ n.labels) }
    ensures { result ≡ unwrap_or (option_map (λ k. first + (n.labels - k)) n.from_default) end }
{
    match n.from_default {
        Some(k) => first + (n.labels - k),
        None => end,
    }
}

// Whether the old value is left, and whether the new one is not: one joins the two tests by `and`, the other by `or`, so that no constant or type tells them
// apart. `==` in place of `matches!` would want a PartialEq of Affix for these two lines alone. They come from two places, the record of the
// operator and the expression around it.
pub fn keeps_old(affix: Affix, discard: bool) -> bool
    ensures { result ≡ (not discard && not (statement.is_prefix affix)) }
{
    !discard && matches!(affix, Affix::Postfix)
}

pub fn leaves_none(affix: Affix, discard: bool) -> bool
    ensures { result ≡ (discard || not (statement.is_prefix affix)) }
{
    discard || matches!(affix, Affix::Postfix)
}
