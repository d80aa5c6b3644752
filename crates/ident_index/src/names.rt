//! The names that the declarations of a file declare.

ghost use Rattle.std.specs.Prelude.{◌≡◌, ◌++◌, OnOk, map};
ghost use Rattle.std.specs.List.{flat_map};
ghost use Rattle.ident_index.specs.Naming.{declares, names_of_element, names_of_field};
ghost use Rattle.ident_index.specs.Naming.{names_of_param, names_of_signature, names_of_term};
ghost use Rattle.ident_index.specs.Naming.{names_of_type};

use crate::hit::HitKind;
use go_ast::{Element, Field, Param, Seq, Signature, Span, Term, TypeExpr};
use plain_data::Mem;

/// The offset where a declared name begins, and its kind.
pub(crate) type Name = (u32, HitKind);

/// Adds the names at these spans, all of one kind.
pub(crate) fn push_names(names: &mut Vec<Name>, spans: &[Span], kind: HitKind) -> Mem<()>
    ensures { OnOk result (names.new.items ≡ names.old.items ++ map (declares kind) spans.now) }
{
    for span in spans {
        names.push((span.start, kind))?;
    }
    Ok(())
}

#[cycle(declaring)]
pub(crate) fn type_names(names: &mut Vec<Name>, typ: &TypeExpr) -> Mem<()>
    ensures { OnOk result (names.new.items ≡ names.old.items ++ names_of_type typ.now) }
{
    match typ {
        TypeExpr::Name { args, .. } => types_names(names, args),
        TypeExpr::Pointer(elem) => type_names(names, elem.get()),
        TypeExpr::Slice(elem) => type_names(names, elem.get()),
        TypeExpr::Array { elem, .. } => type_names(names, elem.get()),
        TypeExpr::Map { key, value } => {
            type_names(names, key.get())?;
            type_names(names, value.get())
        }
        TypeExpr::Chan { elem, .. } => type_names(names, elem.get()),
        TypeExpr::Func(sig) => signature_names(names, sig),
        TypeExpr::Struct(fields) => fields_names(names, fields),
        TypeExpr::Interface(elements) => elements_names(names, elements),
    }
}

#[cycle(declaring)]
fn types_names(names: &mut Vec<Name>, types: &Seq<TypeExpr>) -> Mem<()>
    ensures { OnOk result (names.new.items ≡ names.old.items ++ flat_map names_of_type types.now) }
{
    for typ in types.as_slice() {
        type_names(names, typ)?;
    }
    Ok(())
}

/// Adds nothing for a parameter that shares the next one's type, whose names come there.
#[cycle(declaring)]
fn param_names(names: &mut Vec<Name>, param: &Param) -> Mem<()>
    ensures { OnOk result (names.new.items ≡ names.old.items ++ names_of_param param.now) }
{
    if param.shares {
        return Ok(());
    }
    type_names(names, param.typ.get())
}

#[cycle(declaring)]
fn params_names(names: &mut Vec<Name>, params: &Seq<Param>) -> Mem<()>
    ensures { OnOk result (names.new.items
        ≡ names.old.items ++ flat_map names_of_param params.now) }
{
    for param in params.as_slice() {
        param_names(names, param)?;
    }
    Ok(())
}

#[cycle(declaring)]
pub(crate) fn signature_names(names: &mut Vec<Name>, sig: &Signature) -> Mem<()>
    ensures { OnOk result (names.new.items ≡ names.old.items ++ names_of_signature sig.now) }
{
    params_names(names, &sig.params)?;
    params_names(names, &sig.results)
}

#[cycle(declaring)]
fn fields_names(names: &mut Vec<Name>, fields: &Seq<Field>) -> Mem<()>
    ensures { OnOk result (names.new.items
        ≡ names.old.items ++ flat_map names_of_field fields.now) }
{
    for field in fields.as_slice() {
        push_names(names, field.names.as_slice(), HitKind::VarName)?;
        type_names(names, &field.typ)?;
    }
    Ok(())
}

#[cycle(declaring)]
fn elements_names(names: &mut Vec<Name>, elements: &Seq<Element>) -> Mem<()>
    ensures { OnOk result (names.new.items
        ≡ names.old.items ++ flat_map names_of_element elements.now) }
{
    for element in elements.as_slice() {
        element_names(names, element)?;
    }
    Ok(())
}

#[cycle(declaring)]
fn element_names(names: &mut Vec<Name>, element: &Element) -> Mem<()>
    ensures { OnOk result (names.new.items ≡ names.old.items ++ names_of_element element.now) }
{
    match element {
        Element::Method { name, sig, .. } => {
            names.push((name.start, HitKind::MethodName))?;
            signature_names(names, sig)
        }
        Element::Terms { terms, .. } => terms_names(names, terms),
    }
}

#[cycle(declaring)]
pub(crate) fn terms_names(names: &mut Vec<Name>, terms: &Seq<Term>) -> Mem<()>
    ensures { OnOk result (names.new.items ≡ names.old.items ++ flat_map names_of_term terms.now) }
{
    for term in terms.as_slice() {
        type_names(names, &term.typ)?;
    }
    Ok(())
}
