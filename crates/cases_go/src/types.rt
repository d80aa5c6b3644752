//! Types on one line.

use go_ast::{ChanDir, Element, Field, Param, Seq, Signature, Span, Term, TokenRange, TypeExpr};
use plain_data::Mem;
use type_parser::text_of;

/// Adds the text of a span.
pub fn push_span(line: &mut String, source: &str, span: Span) -> Mem<()> {
    let bytes = text_of(source.as_bytes(), span);
    line.push_str(str::from_utf8(bytes).unwrap_or("?"))?;
    Ok(())
}

/// Adds a range of tokens.
pub fn push_range(line: &mut String, range: TokenRange) -> Mem<()> {
    let TokenRange { first, after } = range;
    write!(line, "#{first}-{after}")?;
    Ok(())
}

/// Adds names, with commas between them.
pub fn push_names(line: &mut String, source: &str, names: &[Span]) -> Mem<()> {
    for (i, name) in names.iter().enumerate() {
        if i > 0 {
            line.push_str(", ")?;
        }
        push_span(line, source, *name)?;
    }
    Ok(())
}

/// Adds a name and a blank, where there is one.
fn push_name_if_any(line: &mut String, source: &str, name: Option<Span>) -> Mem<()> {
    if let Some(name) = name {
        push_span(line, source, name)?;
        line.push_str(" ")?;
    }
    Ok(())
}

/// The word for a channel's direction.
fn word_of(dir: ChanDir) -> &'static str {
    match dir {
        ChanDir::Both => "chan",
        ChanDir::Send => "send",
        ChanDir::Receive => "receive",
    }
}

/// Adds a word and a type in parentheses.
#[cycle(printing)]
fn push_of(line: &mut String, source: &str, word: &str, typ: &TypeExpr) -> Mem<()> {
    line.push_str(word)?;
    line.push_str("(")?;
    push_type(line, source, typ)?;
    line.push_str(")")?;
    Ok(())
}

/// Adds the arguments of a type, where there are any.
#[cycle(printing)]
fn push_args(line: &mut String, source: &str, args: &Seq<TypeExpr>) -> Mem<()> {
    if args.is_empty() {
        return Ok(());
    }
    line.push_str("[")?;
    for (i, arg) in args.as_slice().iter().enumerate() {
        if i > 0 {
            line.push_str(", ")?;
        }
        push_type(line, source, arg)?;
    }
    line.push_str("]")?;
    Ok(())
}

/// Adds a type.
#[cycle(printing)]
pub fn push_type(line: &mut String, source: &str, typ: &TypeExpr) -> Mem<()> {
    match typ {
        TypeExpr::Name {
            qualifier,
            name,
            args,
        } => {
            if let Some(qualifier) = qualifier {
                push_span(line, source, *qualifier)?;
                line.push_str(".")?;
            }
            push_span(line, source, *name)?;
            push_args(line, source, args)
        }
        TypeExpr::Pointer(elem) => push_of(line, source, "pointer", elem.get()),
        TypeExpr::Slice(elem) => push_of(line, source, "slice", elem.get()),
        TypeExpr::Array { length, elem } => {
            line.push_str("array")?;
            push_range(line, *length)?;
            push_of(line, source, "", elem.get())
        }
        TypeExpr::Map { key, value } => {
            push_of(line, source, "map", key.get())?;
            push_of(line, source, "", value.get())
        }
        TypeExpr::Chan { dir, elem } => push_of(line, source, word_of(*dir), elem.get()),
        TypeExpr::Func(sig) => {
            line.push_str("func")?;
            push_signature(line, source, sig)
        }
        TypeExpr::Struct(fields) => push_fields(line, source, fields),
        TypeExpr::Interface(elements) => push_elements(line, source, elements),
    }
}

/// Adds parameters or results in parentheses.
#[cycle(printing)]
fn push_params(line: &mut String, source: &str, params: &Seq<Param>) -> Mem<()> {
    line.push_str("(")?;
    for (i, param) in params.as_slice().iter().enumerate() {
        if i > 0 {
            line.push_str(", ")?;
        }
        push_name_if_any(line, source, param.name)?;
        if param.variadic {
            line.push_str("...")?;
        }
        push_type(line, source, param.typ.get())?;
    }
    line.push_str(")")?;
    Ok(())
}

/// Adds the parameters and the results of a signature.
#[cycle(printing)]
pub fn push_signature(line: &mut String, source: &str, sig: &Signature) -> Mem<()> {
    push_params(line, source, &sig.params)?;
    push_params(line, source, &sig.results)
}

/// Adds a struct: the names, the type and the tag of each field.
#[cycle(printing)]
fn push_fields(line: &mut String, source: &str, fields: &Seq<Field>) -> Mem<()> {
    line.push_str("struct{")?;
    for (i, field) in fields.as_slice().iter().enumerate() {
        if i > 0 {
            line.push_str("; ")?;
        }
        push_names(line, source, field.names.as_slice())?;
        line.push_str(":")?;
        push_type(line, source, &field.typ)?;
        if let Some(tag) = field.tag {
            push_span(line, source, tag)?;
        }
    }
    line.push_str("}")?;
    Ok(())
}

/// Adds an interface.
#[cycle(printing)]
fn push_elements(line: &mut String, source: &str, elements: &Seq<Element>) -> Mem<()> {
    line.push_str("interface{")?;
    for (i, element) in elements.as_slice().iter().enumerate() {
        if i > 0 {
            line.push_str("; ")?;
        }
        push_element(line, source, element)?;
    }
    line.push_str("}")?;
    Ok(())
}

#[cycle(printing)]
fn push_element(line: &mut String, source: &str, element: &Element) -> Mem<()> {
    match element {
        Element::Method { name, sig, .. } => {
            push_span(line, source, *name)?;
            push_signature(line, source, sig)
        }
        Element::Terms { terms, .. } => push_terms(line, source, terms),
    }
}

/// Adds the terms of a union.
#[cycle(printing)]
pub fn push_terms(line: &mut String, source: &str, terms: &Seq<Term>) -> Mem<()> {
    for (i, term) in terms.as_slice().iter().enumerate() {
        if i > 0 {
            line.push_str(" | ")?;
        }
        if term.tilde {
            line.push_str("~")?;
        }
        push_type(line, source, &term.typ)?;
    }
    Ok(())
}
