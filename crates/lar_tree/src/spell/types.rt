// Types.
ghost use Rattle.std.specs.Prelude.{◌≡◌, ◌++◌, OnOk};
ghost use Rattle.lar_tree.specs.Spelling.{kinds};
ghost use Rattle.lar_tree.specs.Types.{flat_type, flat_types, flat_args, flat_arg, flat_more_args};
ghost use Rattle.lar_tree.specs.TypeView.{type_view, tuple_view, args_view, arg_view, more_types_view, more_args_view};

use super::Speller;
use crate::{GenericArg, GenericArgs, Keyword, Member, Sign, TupleTy, Ty};
use std::alloc::AllocError;

#[tactic(auto, using(std::proofs::lemmas::Grind::common_steps, crate::proofs::KindsOf::kinds_of))]
impl Speller {
    #[cycle(types)]
    pub(super) fn ty(&mut self, ty: &Ty) -> Result<(), AllocError>
        ensures { OnOk result (self.new.kinds.items ≡ self.old.kinds.items ++ kinds (flat_type (type_view ty.now))) }
    {
        match ty {
            Ty::Int(_) => self.word(Keyword::I64),
            Ty::Bool(_) => self.word(Keyword::Bool),
            Ty::Unit(_, _) => {
                self.sign(Sign::OpenParen)?;
                self.sign(Sign::CloseParen)
            }
            Ty::Tuple(tuple) => self.tuple_ty(tuple.get()),
            Ty::Named(path, None) => self.path(path),
            Ty::Named(path, Some(args)) => {
                self.path(path)?;
                self.generic_args(args.get())
            }
        }
    }

    #[cycle(types)]
    fn tuple_ty(&mut self, tuple: &TupleTy) -> Result<(), AllocError>
        ensures { OnOk result (self.new.kinds.items ≡ self.old.kinds.items ++ kinds (flat_type (tuple_view tuple.now))) }
    {
        self.sign(Sign::OpenParen)?;
        self.ty(&tuple.first)?;
        self.sign(Sign::Comma)?;
        self.ty(&tuple.second)?;
        self.more_types(tuple.more.as_slice())?;
        self.sign(Sign::CloseParen)
    }

    #[cycle(types)]
    fn more_types(&mut self, members: &[Member<Ty>]) -> Result<(), AllocError>
        ensures { OnOk result (self.new.kinds.items ≡ self.old.kinds.items ++ kinds (flat_types (more_types_view members.now))) }
    {
        for member in members {
            self.sign(Sign::Comma)?;
            self.ty(&member.value)?;
        }
        Ok(())
    }

    #[cycle(types)]
    pub(super) fn generic_args(&mut self, args: &GenericArgs) -> Result<(), AllocError>
        ensures { OnOk result (self.new.kinds.items ≡ self.old.kinds.items ++ kinds (flat_args (args_view args.now))) }
    {
        self.sign(Sign::Less)?;
        self.generic_arg(&args.list.first)?;
        self.more_args(args.list.more.as_slice())?;
        self.sign(Sign::Greater)
    }

    #[cycle(types)]
    fn generic_arg(&mut self, arg: &GenericArg) -> Result<(), AllocError>
        ensures { OnOk result (self.new.kinds.items ≡ self.old.kinds.items ++ kinds (flat_arg (arg_view arg.now))) }
    {
        match arg {
            GenericArg::Ty(ty) => self.ty(ty),
            GenericArg::Number(number) => self.signed(number),
        }
    }

    #[cycle(types)]
    fn more_args(&mut self, members: &[Member<GenericArg>]) -> Result<(), AllocError>
        ensures { OnOk result (self.new.kinds.items ≡ self.old.kinds.items ++ kinds (flat_more_args (more_args_view members.now))) }
    {
        for member in members {
            self.sign(Sign::Comma)?;
            self.generic_arg(&member.value)?;
        }
        Ok(())
    }
}
