//! The names that the declarations of a file declare.

ghost use Rattle.std.specs.Prelude.{◌≡◌, ◌++◌, OnOk, IfOk, map};
ghost use Rattle.std.specs.List.{flat_map};
ghost use Rattle.ident_index.specs.Naming.{import_name, names_if_any, names_of_decl, names_of_file};
ghost use Rattle.ident_index.specs.Naming.{names_of_func, names_of_import, names_of_type_param};
ghost use Rattle.ident_index.specs.Naming.{names_of_type_spec, names_of_value};

use crate::hit::HitKind;
use crate::names::{Name, push_names, signature_names, terms_names, type_names};
use go_ast::{
    Decl, File, FuncDecl, ImportName, ImportSpec, Seq, TypeExpr, TypeParam, TypeSpec, ValueSpec,
};
use plain_data::Mem;
use std::alloc::Global;

fn names_if_any(names: &mut Vec<Name>, typ: &Option<TypeExpr>) -> Mem<()>
    ensures { OnOk result (names.new.items ≡ names.old.items ++ names_if_any typ.now) }
{
    match typ {
        None => Ok(()),
        Some(typ) => type_names(names, typ),
    }
}

/// Adds nothing for a type parameter that shares the next one's bound, whose names come there.
fn bound_names(names: &mut Vec<Name>, param: &TypeParam) -> Mem<()>
    ensures { OnOk result (names.new.items ≡ names.old.items ++ names_of_type_param param.now) }
{
    if param.shares {
        return Ok(());
    }
    terms_names(names, param.bound.get())
}

fn type_param_names(names: &mut Vec<Name>, params: &Seq<TypeParam>) -> Mem<()>
    ensures { OnOk result (names.new.items
        ≡ names.old.items ++ flat_map names_of_type_param params.now) }
{
    for param in params.as_slice() {
        bound_names(names, param)?;
    }
    Ok(())
}

fn import_name(names: &mut Vec<Name>, local: ImportName) -> Mem<()>
    ensures { OnOk result (names.new.items ≡ names.old.items ++ import_name local) }
{
    match local {
        ImportName::Plain => Ok(()),
        ImportName::Dot => Ok(()),
        ImportName::Named(name) => {
            names.push((name.start, HitKind::ImportName))?;
            Ok(())
        }
    }
}

fn import_names(names: &mut Vec<Name>, specs: &Seq<ImportSpec>) -> Mem<()>
    ensures { OnOk result (names.new.items
        ≡ names.old.items ++ flat_map names_of_import specs.now) }
{
    for spec in specs.as_slice() {
        import_name(names, spec.local)?;
    }
    Ok(())
}

fn value_names(names: &mut Vec<Name>, specs: &Seq<ValueSpec>, kind: HitKind) -> Mem<()>
    ensures { OnOk result (names.new.items
        ≡ names.old.items ++ flat_map (names_of_value kind) specs.now) }
{
    for spec in specs.as_slice() {
        push_names(names, spec.names.as_slice(), kind)?;
        names_if_any(names, &spec.typ)?;
    }
    Ok(())
}

fn type_spec_names(names: &mut Vec<Name>, specs: &Seq<TypeSpec>) -> Mem<()>
    ensures { OnOk result (names.new.items
        ≡ names.old.items ++ flat_map names_of_type_spec specs.now) }
{
    for spec in specs.as_slice() {
        names.push((spec.name.start, HitKind::TypeName))?;
        type_param_names(names, &spec.params)?;
        type_names(names, &spec.typ)?;
    }
    Ok(())
}

fn func_names(names: &mut Vec<Name>, func: &FuncDecl) -> Mem<()>
    ensures { OnOk result (names.new.items ≡ names.old.items ++ names_of_func func.now) }
{
    let kind = match func.receiver {
        None => HitKind::FuncName,
        Some(_) => HitKind::MethodName,
    };
    names.push((func.name.start, kind))?;
    type_param_names(names, &func.params)?;
    signature_names(names, &func.sig)
}

fn decl_names(names: &mut Vec<Name>, decl: &Decl) -> Mem<()>
    ensures { OnOk result (names.new.items ≡ names.old.items ++ names_of_decl decl.now) }
{
    match decl {
        Decl::Import(group) => import_names(names, &group.specs),
        Decl::Const(group) => value_names(names, &group.specs, HitKind::ConstName),
        Decl::Var(group) => value_names(names, &group.specs, HitKind::VarName),
        Decl::Types(group) => type_spec_names(names, &group.specs),
        Decl::Func(func) => func_names(names, func),
    }
}

/// The names that the declarations of a file declare, in the order of the file.
pub(crate) fn file_names(alloc: Global, file: &File) -> Mem<Vec<Name>>
    ensures { IfOk result (λ names. names.items ≡ names_of_file file.now) }
{
    let mut names = Vec::new(alloc);
    names.push((file.package.start, HitKind::PackageName))?;
    for decl in file.decls.as_slice() {
        decl_names(&mut names, decl)?;
    }
    Ok(names)
}
