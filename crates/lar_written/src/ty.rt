//! Types as they are written.
ghost use Rattle.std.specs.Prelude.{◌≡◌, List, [], map, Some, IfOk, OnOk};
ghost use Rattle.std.specs.Option.{option_copied};
ghost use Rattle.type_table.specs.Rows.{Keeps};
ghost use Rattle.type_table.specs.TypeOf.{end, tuple};
ghost use Rattle.lar_tree.specs.TypeView.{type_view, tuple_view, args_view, arg_view, more_types_view};
ghost use Rattle.lar_rules.specs.Fault.{least};
ghost use Rattle.lar_rules.specs.Written as rules;
ghost use Rattle.lar_written.specs.Given.{GivenStand, OneStands, given_if, number_of, param_of};
ghost use Rattle.lar_written.specs.Sites.{site_view};
ghost use Rattle.lar_written.specs.Standing.{number_type, Inside, AllInside, AllStand, StandsIf, tuple_if, others_of};

use crate::fault::note_miscounted;
use crate::fitted::{fit_begun, fit_ended};
use crate::named::{name_begun, name_ended};
use crate::number::{listed, longer, tupled};
use crate::{Fitted, Given, Site};
use lar_told::First;
use lar_tree::{GenericArg, GenericArgs, Member, Path, SignedNumber, Span, TupleTy, Ty};
use std::alloc::{AllocError, Global};
use type_table::{Row, Sort, Types};

/// The tuple of a first part, a second one and others.
fn tuple_of(
    types: &mut Types,
    head: Option<usize>,
    next: Option<usize>,
    others: &[Option<usize>],
) -> Result<Option<usize>, AllocError>
    requires head { Inside types.old head }
    requires next { Inside types.old next }
    requires others { AllInside types.old others.now }
    ensures kept { Keeps types.old types.new }
    ensures of { IfOk result (λ n. StandsIf types.new n (tuple_if (number_type types.old head) (number_type types.old next) (map (number_type types.old) others.now))) }
{
    let list = listed(types, others)?;
    let list = longer(types, next, list)?;
    let list = longer(types, head, list)?;
    tupled(types, list)
}

/// The type `()`.
pub(crate) fn unit(types: &mut Types) -> Result<Option<usize>, AllocError>
    ensures kept { Keeps types.old types.new }
    ensures of { IfOk result (λ n. StandsIf types.new n (Some (tuple end))) }
{
    let none = types.intern(Row::End)?;
    Ok(Some(types.intern(Row::Tuple(none))?))
}

/// A number as one generic. One that a minus cannot turn round, which no source has, is answered as want of memory.
fn number_given(types: &mut Types, number: SignedNumber) -> Result<Given, AllocError>
    ensures kept { Keeps types.old types.new }
    ensures of { IfOk result (λ g. OneStands types.new g (number_of number)) }
{
    let (at, value) = match number.minus {
        None => (number.span, number.value),
        Some(minus) => match number.value.checked_neg() {
            Some(value) => (minus, value),
            None => return Err(AllocError),
        },
    };
    let of = Some(types.intern(Row::Number(value))?);
    Ok(Given {
        at,
        sort: Sort::Number,
        of,
    })
}

fn param_given(types: &mut Types, at: Span, place: usize) -> Result<Given, AllocError>
    ensures kept { Keeps types.old types.new }
    ensures of { IfOk result (λ g. OneStands types.new g (param_of at place)) }
{
    let of = Some(types.intern(Row::Param(place))?);
    Ok(Given {
        at,
        sort: Sort::Number,
        of,
    })
}

/// A const generic's name as one generic. It takes no generics.
fn const_given(
    alloc: Global,
    site: &Site,
    types: &mut Types,
    first: &mut First,
    ty: &Ty,
    place: usize,
) -> Result<Given, AllocError>
    ensures kept { Keeps types.old types.new }
    ensures of { IfOk result (λ g. OneStands types.new g (rules.number_given (site_view site.now) (type_view ty.now) place)) }
    ensures told { OnOk result (first.new ≡ least first.old (rules.number_given (site_view site.now) (type_view ty.now) place).faults) }
{
    match ty {
        Ty::Int(at) => param_given(types, *at, place),
        Ty::Bool(at) => param_given(types, *at, place),
        Ty::Unit(from, _) => param_given(types, *from, place),
        Ty::Tuple(tuple) => param_given(types, tuple.get().open, place),
        Ty::Named(path, args) => match args {
            None => param_given(types, path.first.span, place),
            Some(args) => {
                note_miscounted(alloc, site, first, path, 0, args.get().list.len())?;
                Ok(Given {
                    at: path.first.span,
                    sort: Sort::Number,
                    of: None,
                })
            }
        },
    }
}

#[cycle(writing)]
fn ty_written(
    ty: &Ty,
    alloc: Global,
    site: &Site,
    types: &mut Types,
    first: &mut First,
) -> Result<Option<usize>, AllocError>
    ensures kept { Keeps types.old types.new }
    ensures of { IfOk result (λ n. StandsIf types.new n (rules.written (site_view site.now) (type_view ty.now)).of) }
    ensures told { OnOk result (first.new ≡ least first.old (rules.written (site_view site.now) (type_view ty.now)).faults) }
{
    match ty {
        Ty::Int(_) => Ok(Some(types.intern(Row::Int)?)),
        Ty::Bool(_) => Ok(Some(types.intern(Row::Bool)?)),
        Ty::Unit(_, _) => unit(types),
        Ty::Tuple(tuple) => tuple_written(tuple.get(), alloc, site, types, first),
        Ty::Named(path, args) => match args {
            None => {
                let begun = name_begun(alloc, site, first, path, 0)?;
                name_ended(alloc, site, types, first, &begun, &[])
            }
            Some(args) => {
                let args = args.get();
                let begun = name_begun(alloc, site, first, path, args.list.len())?;
                let given = args_given(args, alloc, site, types, first)?;
                name_ended(alloc, site, types, first, &begun, given.as_slice())
            }
        },
    }
}

#[cycle(writing)]
fn tuple_written(
    tuple: &TupleTy,
    alloc: Global,
    site: &Site,
    types: &mut Types,
    first: &mut First,
) -> Result<Option<usize>, AllocError>
    ensures kept { Keeps types.old types.new }
    ensures of { IfOk result (λ n. StandsIf types.new n (rules.written (site_view site.now) (tuple_view tuple.now)).of) }
    ensures told { OnOk result (first.new ≡ least first.old (rules.written (site_view site.now) (tuple_view tuple.now)).faults) }
{
    let head = ty_written(&tuple.first, alloc, site, types, first)?;
    let next = ty_written(&tuple.second, alloc, site, types, first)?;
    let others = others_written(tuple.more.as_slice(), alloc, site, types, first)?;
    tuple_of(types, head, next, others.as_slice())
}

#[cycle(writing)]
fn others_written(
    members: &[Member<Ty>],
    alloc: Global,
    site: &Site,
    types: &mut Types,
    first: &mut First,
) -> Result<Vec<Option<usize>>, AllocError>
    ensures kept { Keeps types.old types.new }
    ensures of { IfOk result (λ ns. AllStand types.new ns.items (others_of (site_view site.now) (more_types_view members.now))) }
    ensures told { OnOk result (first.new ≡ least first.old (rules.written_others (site_view site.now) (more_types_view members.now)).faults) }
{
    let mut out = Vec::new(alloc);
    for member in members {
        out.push(ty_written(&member.value, alloc, site, types, first)?)?;
    }
    Ok(out)
}

#[cycle(writing)]
fn args_given(
    args: &GenericArgs,
    alloc: Global,
    site: &Site,
    types: &mut Types,
    first: &mut First,
) -> Result<Vec<Given>, AllocError>
    ensures kept { Keeps types.old types.new }
    ensures of { IfOk result (λ gs. GivenStand types.new gs.items (rules.given (site_view site.now) (args_view args.now))) }
    ensures told { OnOk result (first.new ≡ least first.old (rules.all_given (rules.given (site_view site.now) (args_view args.now)))) }
{
    let mut out = Vec::new(alloc);
    out.push(one_given(&args.list.first, alloc, site, types, first)?)?;
    for member in args.list.more.as_slice() {
        out.push(one_given(&member.value, alloc, site, types, first)?)?;
    }
    Ok(out)
}

#[cycle(writing)]
fn one_given(
    arg: &GenericArg,
    alloc: Global,
    site: &Site,
    types: &mut Types,
    first: &mut First,
) -> Result<Given, AllocError>
    ensures kept { Keeps types.old types.new }
    ensures of { IfOk result (λ g. OneStands types.new g (rules.one_given (site_view site.now) (arg_view arg.now))) }
    ensures told { OnOk result (first.new ≡ least first.old (rules.one_given (site_view site.now) (arg_view arg.now)).faults) }
{
    match arg {
        GenericArg::Number(number) => number_given(types, *number),
        GenericArg::Ty(ty) => match site.const_generic(ty) {
            Some(place) => const_given(alloc, site, types, first, ty, place),
            None => {
                let of = ty_written(ty, alloc, site, types, first)?;
                Ok(Given {
                    at: ty.start(),
                    sort: Sort::Ty,
                    of,
                })
            }
        },
    }
}

/// The type that is written, and none where there is a fault in it.
pub fn written(
    alloc: Global,
    types: &mut Types,
    first: &mut First,
    site: &Site,
    ty: &Ty,
) -> Result<Option<usize>, AllocError>
    ensures kept { Keeps types.old types.new }
    ensures of { IfOk result (λ n. StandsIf types.new n (rules.written (site_view site.now) (type_view ty.now)).of) }
    ensures told { OnOk result (first.new ≡ least first.old (rules.written (site_view site.now) (type_view ty.now)).faults) }
{
    ty_written(ty, alloc, site, types, first)
}

/// The generics that are given, in angle brackets where there are some.
pub fn generics_given(
    alloc: Global,
    types: &mut Types,
    first: &mut First,
    site: &Site,
    args: Option<&GenericArgs>,
) -> Result<Vec<Given>, AllocError>
    ensures kept { Keeps types.old types.new }
    ensures of { IfOk result (λ gs. GivenStand types.new gs.items (given_if (site_view site.now) (option_copied args.entry))) }
    ensures told { OnOk result (first.new ≡ least first.old (rules.all_given (given_if (site_view site.now) (option_copied args.entry)))) }
{
    match args {
        None => Ok(Vec::new(alloc)),
        Some(args) => args_given(args, alloc, site, types, first),
    }
}

fn args_fitted(
    alloc: Global,
    types: &mut Types,
    first: &mut First,
    site: &Site,
    path: &Path,
    sorts: &[Sort],
    args: &GenericArgs,
) -> Result<Fitted, AllocError>
    ensures kept { Keeps types.old types.new }
    ensures counted { IfOk result (λ f. f.counted ≡ (rules.fitted (site_view site.now) path.now sorts.now (rules.given (site_view site.now) (args_view args.now))).counted) }
    ensures of { IfOk result (λ f. StandsIf types.new f.of (rules.fitted (site_view site.now) path.now sorts.now (rules.given (site_view site.now) (args_view args.now))).of) }
    ensures told { OnOk result (first.new ≡ least first.old (rules.fitted (site_view site.now) path.now sorts.now (rules.given (site_view site.now) (args_view args.now))).faults) }
{
    fit_begun(alloc, site, first, path, sorts.len(), args.list.len())?;
    let given = args_given(args, alloc, site, types, first)?;
    fit_ended(alloc, site, types, first, sorts, given.as_slice())
}

fn none_fitted(
    alloc: Global,
    types: &mut Types,
    first: &mut First,
    site: &Site,
    path: &Path,
    sorts: &[Sort],
) -> Result<Fitted, AllocError>
    ensures kept { Keeps types.old types.new }
    ensures counted { IfOk result (λ f. f.counted ≡ (rules.fitted (site_view site.now) path.now sorts.now []).counted) }
    ensures of { IfOk result (λ f. StandsIf types.new f.of (rules.fitted (site_view site.now) path.now sorts.now []).of) }
    ensures told { OnOk result (first.new ≡ least first.old (rules.fitted (site_view site.now) path.now sorts.now []).faults) }
{
    fit_begun(alloc, site, first, path, sorts.len(), 0)?;
    fit_ended(alloc, site, types, first, sorts, &[])
}

/// The generics of a call or of `new` against those that are declared.
pub fn generics_fitted(
    alloc: Global,
    types: &mut Types,
    first: &mut First,
    site: &Site,
    path: &Path,
    sorts: &[Sort],
    args: Option<&GenericArgs>,
) -> Result<Fitted, AllocError>
    ensures kept { Keeps types.old types.new }
    ensures counted { IfOk result (λ f. f.counted ≡ (rules.fitted (site_view site.now) path.now sorts.now (given_if (site_view site.now) (option_copied args.entry))).counted) }
    ensures of { IfOk result (λ f. StandsIf types.new f.of (rules.fitted (site_view site.now) path.now sorts.now (given_if (site_view site.now) (option_copied args.entry))).of) }
    ensures told { OnOk result (first.new ≡ least first.old (rules.fitted (site_view site.now) path.now sorts.now (given_if (site_view site.now) (option_copied args.entry))).faults) }
{
    match args {
        None => none_fitted(alloc, types, first, site, path, sorts),
        Some(args) => args_fitted(alloc, types, first, site, path, sorts, args),
    }
}
