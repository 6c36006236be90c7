#![tactic(auto)]

// How a value is reached, and what is done with it there (`access.rs`).
ghost use Rattle.std.specs.Prelude.{◌≡◌, List, ℕ, ◌+◌, ◌<◌, ◌≤◌, T, length};
ghost use Rattle.script_records.specs.Layout.{layout_of, string_at};
ghost use Rattle.script.specs.Resolve.{constant_over};
ghost use Rattle.lowering.specs.Access.{for_identifier, for_name, for_constant, get_value, set_value, get_and_set_value, delete, call, call_new};
ghost use Rattle.special_properties.specs.SpecialProperties.{same_bytes, null, undefined};
ghost use Rattle.list_slice.specs.File.{names_string, text_in};
ghost use Rattle.codegen_state.specs.View.{named, value_in};
ghost use Rattle.tree.specs.Within.{constant_named};
ghost use Rattle.builder.specs.Runs.{Runs};
ghost use Rattle.constants.specs.Acts.{Acts};
ghost use Rattle.access.specs.Accesses.{access_of, pushed_direct, call_register};

use builder::builder::CodeBuilder;
use codegen_state::Stop;
use constants::context::ScriptContext;
use hir::ConstantKind;
use pcode::{Op, PushValue};
use slice_words::NO_STRING;
use special_properties::{get_special_property, is_null, is_undefined};

// How a value is reached. One call answers with it and a later one takes the step, which is why it is no closure: none may be handed out.
#[derive(Clone, Copy)]
pub enum Access {
    Variable,
    Object,
    Direct,
    SpecialProperty,
    Register(u8),
}

impl Access {
    // The fixed names come before the pool.
    fn for_name(context: &mut ScriptContext, name: u32) -> Access
        ensures { let F = context.old.script.bytes.now in let s = text_in F name in T (names_string F name) →
            Acts (for_name (same_bytes s null) (same_bytes s undefined) s) context.old (access_of result) context.new }
    {
        let s = context.text(name);
        if is_null(s) {
            context.builder.push(PushValue::Null);
            return Access::Direct;
        }
        if is_undefined(s) {
            context.builder.push(PushValue::Undefined);
            return Access::Direct;
        }
        context.push_string(name);
        Access::Variable
    }

    pub fn for_identifier(context: &mut ScriptContext, name: u32) -> Access
        ensures { let F = context.old.script.bytes.now in T (names_string F name) →
            Acts (for_identifier (text_in F name)) context.old (access_of result) context.new }
    {
        match get_special_property(context.text(name)) {
            Some(n) => {
                context.push_string(NO_STRING);
                context.builder.push(PushValue::Integer(n.cast_signed()));
                Access::SpecialProperty
            }
            None => Access::for_name(context, name),
        }
    }

    // The leaves, which want the value alone, read a constant without the way through an access.
    pub fn for_constant(context: &mut ScriptContext, c: ConstantKind) -> Access
        ensures { let F = context.old.script.bytes.now in length F ≤ 1048576 → T (constant_named F c) →
            Acts (for_constant (constant_over (string_at F (layout_of F)) c)) context.old (access_of result) context.new }
    {
        match c {
            ConstantKind::String(s) => {
                context.push_string(s);
                Access::Direct
            }
            ConstantKind::Identifier(s) => Access::for_identifier(context, s),
            ConstantKind::Float(low, high) => direct(context, PushValue::Float(low, high)),
            ConstantKind::Integer(n) => direct(context, PushValue::Integer(n)),
            ConstantKind::Boolean(x) => direct(context, PushValue::Boolean(x)),
            ConstantKind::Register(r) => Access::Register(r),
        }
    }

    // The steps take the builder and, in a call, the number of arguments: those are what each of them is told, and nothing that is kept together.
    pub fn get_value(self, builder: &mut CodeBuilder)
        ensures { (F : List ℕ) → Runs F (get_value (access_of self)) builder.old tt builder.new }
    {
        match self {
            Access::Variable => builder.action(Op::GetVariable),
            Access::Object => builder.action(Op::GetMember),
            Access::Direct => {}
            Access::SpecialProperty => builder.action(Op::GetProperty),
            Access::Register(r) => builder.push(PushValue::Register(r)),
        }
    }

    pub fn set_value(self, builder: &mut CodeBuilder)
        ensures { (F : List ℕ) → Runs F (set_value (access_of self)) builder.old tt builder.new }
    {
        match self {
            Access::Variable => builder.action(Op::SetVariable),
            Access::Object => builder.action(Op::SetMember),
            Access::Direct => builder.refuse(Stop::NotAssignable),
            Access::SpecialProperty => builder.action(Op::SetProperty),
            Access::Register(r) => {
                builder.store_register(r);
                builder.action(Op::Pop);
            }
        }
    }

    pub fn get_and_set_value(self, builder: &mut CodeBuilder)
        ensures { (F : List ℕ) → Runs F (get_and_set_value (access_of self)) builder.old tt builder.new }
    {
        match self {
            // What `set_value` does stands there alone: around it the value goes through register 0, and is left on the stack.
            Access::Variable | Access::Object | Access::SpecialProperty => {
                builder.store_register(0);
                self.set_value(builder);
                builder.push(PushValue::Register(0));
            }
            Access::Direct => builder.refuse(Stop::NotAssignable),
            Access::Register(r) => builder.store_register(r),
        }
    }

    pub fn delete(self, builder: &mut CodeBuilder)
        ensures { (F : List ℕ) → Runs F (delete (access_of self)) builder.old tt builder.new }
    {
        match self {
            Access::Variable | Access::Direct => builder.action(Op::Delete2),
            Access::Object => builder.action(Op::Delete),
            Access::SpecialProperty => builder.refuse(Stop::NotAssignable),
            Access::Register(_) => builder.push(PushValue::Boolean(false)),
        }
    }

    // A construction and a call have other actions, and a direct value goes with an object in the one and with a variable in the other. A sum that doesn't fit a
    // word stays at the largest: the stack is never that high, and falls to 0 either way.
    pub fn call_new(self, builder: &mut CodeBuilder, n: u32)
        ensures { (F : List ℕ) → Runs F (call_new n (access_of self)) builder.old tt builder.new }
    {
        match self {
            Access::Variable => builder.action_down(Op::NewObject, n.saturating_add(1)),
            Access::Object | Access::Direct => builder.action_down(
                Op::NewMethod,
                n.saturating_add(2),
            ),
            Access::SpecialProperty => builder.refuse(Stop::NotAssignable),
            Access::Register(r) => call_register(builder, Op::NewMethod, n, r),
        }
    }

    pub fn call(self, builder: &mut CodeBuilder, n: u32)
        ensures { (F : List ℕ) → Runs F (call n (access_of self)) builder.old tt builder.new }
    {
        match self {
            Access::Variable | Access::Direct => builder.action_down(
                Op::CallFunction,
                n.saturating_add(1),
            ),
            Access::Object => builder.action_down(Op::CallMethod, n.saturating_add(2)),
            Access::SpecialProperty => builder.refuse(Stop::NotAssignable),
            Access::Register(r) => call_register(builder, Op::CallMethod, n, r),
        }
    }
}

// A value that is pushed is direct.
fn direct(context: &mut ScriptContext, v: PushValue) -> Access
    ensures { let F = context.old.script.bytes.now in T (named F v) →
        Acts (pushed_direct (value_in F v)) context.old (access_of result) context.new }
{
    context.builder.push(v);
    Access::Direct
}

// A register holds the object itself: it is called without a name.
fn call_register(builder: &mut CodeBuilder, o: Op, n: u32, register: u8)
    ensures { (F : List ℕ) → Runs F (call_register o n register) builder.old tt builder.new }
{
    builder.push(PushValue::Register(register));
    builder.push(PushValue::Undefined);
    builder.action_down(o, n.saturating_add(2));
}
