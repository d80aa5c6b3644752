//! Declarations on one line.

use crate::types::{push_names, push_range, push_signature, push_span, push_terms, push_type};
use go_ast::{
    Decl, FuncDecl, ImportName, ImportSpec, Receiver, TokenRange, TypeParam, TypeSpec, ValueSpec,
};
use plain_data::Mem;

/// The tokens of a declaration.
pub fn tokens_of(decl: &Decl) -> TokenRange {
    match decl {
        Decl::Import(group) => group.tokens,
        Decl::Const(group) | Decl::Var(group) => group.tokens,
        Decl::Types(group) => group.tokens,
        Decl::Func(func) => func.tokens,
    }
}

/// Adds what opens a list of specs, where it is grouped, and a keyword before.
fn open(line: &mut String, keyword: &str, grouped: bool) -> Mem<()> {
    line.push_str(keyword)?;
    if grouped {
        line.push_str("(")?;
    }
    Ok(())
}

fn close(line: &mut String, grouped: bool) -> Mem<()> {
    if grouped {
        line.push_str(")")?;
    }
    Ok(())
}

fn push_import(line: &mut String, source: &str, spec: &ImportSpec) -> Mem<()> {
    match spec.local {
        ImportName::Plain => {}
        ImportName::Dot => line.push_str(". ")?,
        ImportName::Named(name) => {
            push_span(line, source, name)?;
            line.push_str(" ")?;
        }
    }
    push_span(line, source, spec.path)
}

fn push_imports(line: &mut String, source: &str, specs: &[ImportSpec]) -> Mem<()> {
    for (i, spec) in specs.iter().enumerate() {
        if i > 0 {
            line.push_str("; ")?;
        }
        push_import(line, source, spec)?;
    }
    Ok(())
}

fn push_value(line: &mut String, source: &str, spec: &ValueSpec) -> Mem<()> {
    push_names(line, source, spec.names.as_slice())?;
    if let Some(typ) = &spec.typ {
        line.push_str(" ")?;
        push_type(line, source, typ)?;
    }
    if let Some(value) = spec.value {
        line.push_str(" = ")?;
        push_range(line, value)?;
    }
    Ok(())
}

fn push_values(line: &mut String, source: &str, specs: &[ValueSpec]) -> Mem<()> {
    for (i, spec) in specs.iter().enumerate() {
        if i > 0 {
            line.push_str("; ")?;
        }
        push_value(line, source, spec)?;
    }
    Ok(())
}

/// Adds type parameters, where there are any.
fn push_type_params(line: &mut String, source: &str, params: &[TypeParam]) -> Mem<()> {
    if params.is_empty() {
        return Ok(());
    }
    line.push_str("[")?;
    for (i, param) in params.iter().enumerate() {
        if i > 0 {
            line.push_str(", ")?;
        }
        push_span(line, source, param.name)?;
        line.push_str(" ")?;
        push_terms(line, source, param.bound.get())?;
    }
    line.push_str("]")?;
    Ok(())
}

fn push_type_spec(line: &mut String, source: &str, spec: &TypeSpec) -> Mem<()> {
    push_span(line, source, spec.name)?;
    push_type_params(line, source, spec.params.as_slice())?;
    line.push_str(if spec.alias { " = " } else { " " })?;
    push_type(line, source, &spec.typ)
}

fn push_type_specs(line: &mut String, source: &str, specs: &[TypeSpec]) -> Mem<()> {
    for (i, spec) in specs.iter().enumerate() {
        if i > 0 {
            line.push_str("; ")?;
        }
        push_type_spec(line, source, spec)?;
    }
    Ok(())
}

/// Adds a receiver: its name, its star, its type and the names of its parameters.
fn push_receiver(line: &mut String, source: &str, receiver: &Receiver) -> Mem<()> {
    line.push_str("(")?;
    if let Some(name) = receiver.name {
        push_span(line, source, name)?;
        line.push_str(" ")?;
    }
    if receiver.pointer {
        line.push_str("*")?;
    }
    push_span(line, source, receiver.base)?;
    if !receiver.params.is_empty() {
        line.push_str("[")?;
        push_names(line, source, receiver.params.as_slice())?;
        line.push_str("]")?;
    }
    line.push_str(") ")?;
    Ok(())
}

fn push_func(line: &mut String, source: &str, func: &FuncDecl) -> Mem<()> {
    line.push_str("func ")?;
    if let Some(receiver) = &func.receiver {
        push_receiver(line, source, receiver)?;
    }
    push_span(line, source, func.name)?;
    push_type_params(line, source, func.params.as_slice())?;
    push_signature(line, source, &func.sig)?;
    if let Some(body) = func.body {
        line.push_str(" ")?;
        push_range(line, body)?;
    }
    Ok(())
}

/// Adds a declaration.
pub fn push_decl(line: &mut String, source: &str, decl: &Decl) -> Mem<()> {
    match decl {
        Decl::Import(group) => {
            open(line, "import ", group.grouped)?;
            push_imports(line, source, group.specs.as_slice())?;
            close(line, group.grouped)
        }
        Decl::Const(group) => {
            open(line, "const ", group.grouped)?;
            push_values(line, source, group.specs.as_slice())?;
            close(line, group.grouped)
        }
        Decl::Var(group) => {
            open(line, "var ", group.grouped)?;
            push_values(line, source, group.specs.as_slice())?;
            close(line, group.grouped)
        }
        Decl::Types(group) => {
            open(line, "type ", group.grouped)?;
            push_type_specs(line, source, group.specs.as_slice())?;
            close(line, group.grouped)
        }
        Decl::Func(func) => push_func(line, source, func),
    }
}
