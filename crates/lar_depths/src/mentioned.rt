//! The structs that a written type mentions.
ghost use Rattle.std.specs.Prelude.{◌≡◌, ◌++◌, OnOk};
ghost use Rattle.lar_tree.specs.TypeView.{type_view, tuple_view, args_view, arg_view, more_types_view};
ghost use Rattle.lar_rules.specs.Structs as rules;
ghost use Rattle.lar_rules.specs.Written.{type_named};
ghost use Rattle.lar_written.specs.Sites.{site_view};
ghost use Rattle.lar_depths.specs.Depths.{numbers};

use lar_tree::{GenericArg, GenericArgs, Member, Path, TupleTy, Ty};
use lar_written::{Site, TypeName};
use std::alloc::AllocError;

fn name_mentioned(path: &Path, site: &Site, out: &mut Vec<usize>) -> Result<(), AllocError>
    ensures { OnOk result (out.new.items ≡ out.old.items ++ numbers (rules.struct_mentioned (type_named (site_view site.now) path.now))) }
{
    match site.type_named(path) {
        TypeName::Struct(number) => {
            out.push(number)?;
            Ok(())
        }
        TypeName::Generic(_) => Ok(()),
        TypeName::Unknown => Ok(()),
    }
}

/// Puts the numbers of the structs that a type mentions behind those that are there.
#[cycle(mentioning)]
pub(crate) fn ty_mentioned(ty: &Ty, site: &Site, out: &mut Vec<usize>) -> Result<(), AllocError>
    ensures { OnOk result (out.new.items ≡ out.old.items ++ numbers (rules.mentions (site_view site.now) (type_view ty.now))) }
{
    match ty {
        Ty::Int(_) => Ok(()),
        Ty::Bool(_) => Ok(()),
        Ty::Unit(_, _) => Ok(()),
        Ty::Tuple(tuple) => tuple_mentioned(tuple.get(), site, out),
        Ty::Named(path, args) => match args {
            None => name_mentioned(path, site, out),
            Some(args) => {
                name_mentioned(path, site, out)?;
                args_mentioned(args.get(), site, out)
            }
        },
    }
}

#[cycle(mentioning)]
fn tuple_mentioned(tuple: &TupleTy, site: &Site, out: &mut Vec<usize>) -> Result<(), AllocError>
    ensures { OnOk result (out.new.items ≡ out.old.items ++ numbers (rules.mentions (site_view site.now) (tuple_view tuple.now))) }
{
    ty_mentioned(&tuple.first, site, out)?;
    ty_mentioned(&tuple.second, site, out)?;
    others_mentioned(tuple.more.as_slice(), site, out)
}

#[cycle(mentioning)]
fn others_mentioned(
    members: &[Member<Ty>],
    site: &Site,
    out: &mut Vec<usize>,
) -> Result<(), AllocError>
    ensures { OnOk result (out.new.items ≡ out.old.items ++ numbers (rules.mentions_of_others (site_view site.now) (more_types_view members.now))) }
{
    for member in members {
        ty_mentioned(&member.value, site, out)?;
    }
    Ok(())
}

#[cycle(mentioning)]
fn args_mentioned(args: &GenericArgs, site: &Site, out: &mut Vec<usize>) -> Result<(), AllocError>
    ensures { OnOk result (out.new.items ≡ out.old.items ++ numbers (rules.mentions_of_args (site_view site.now) (args_view args.now))) }
{
    arg_mentioned(&args.list.first, site, out)?;
    for member in args.list.more.as_slice() {
        arg_mentioned(&member.value, site, out)?;
    }
    Ok(())
}

#[cycle(mentioning)]
fn arg_mentioned(arg: &GenericArg, site: &Site, out: &mut Vec<usize>) -> Result<(), AllocError>
    ensures { OnOk result (out.new.items ≡ out.old.items ++ numbers (rules.mentions_of_arg (site_view site.now) (arg_view arg.now))) }
{
    match arg {
        GenericArg::Ty(ty) => ty_mentioned(ty, site, out),
        GenericArg::Number(_) => Ok(()),
    }
}
