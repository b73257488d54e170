//! All that is kept of the declarations, made in one pass over them.
ghost use Rattle.std.specs.Prelude.{◌≡◌, ℕ, ◌<◌, ◌≤◌, ◌++◌, ◌∷◌, [], List, cond, length, map, is_some, None, OnOk, IfOk};
ghost use Rattle.std.specs.Option.{option_flatten};
ghost use Rattle.lar_rules.specs.Fault.{least};
ghost use Rattle.lar_rules.specs.Faults.{past_limit, max_functions};
ghost use Rattle.lar_rules.specs.Twice.{twice};
ghost use Rattle.lar_names.specs.declared.declaration.Declaration.{Declaration};
ghost use Rattle.lar_names.specs.Declarations.{declared_view, what_view};
ghost use Rattle.lar_names.specs.Entries.{first_meaning, repeat};
ghost use Rattle.lar_names.specs.Indexed.{IsIndex, lengths};
ghost use Rattle.lar_names.specs.Items.{struct_in, const_in, function_in};
ghost use Rattle.lar_names.specs.Meanings.{meaning_as};
ghost use Rattle.lar_names.specs.Numbered.{with_first};
ghost use Rattle.lar_names.specs.Scopes.{AreScopes};
ghost use Rattle.lar_names.specs.Tables.{look};

use crate::{ConstItem, Declaration, FunctionItem, Meaning, Scopes, StructItem, Tables, What};
use lar_told::First;
use lar_tree::{Code, Name};
use std::alloc::{AllocError, Global};

/// Functions at most.
const MAX_FUNCTIONS: usize = 65535;

/// The items of each kind, and what each name means, of the declarations so far.
#[derive(Drop)]
pub struct Index<'a> {
    pub structs: Vec<StructItem<'a>>,
    pub consts: Vec<ConstItem<'a>>,
    pub functions: Vec<FunctionItem<'a>>,
    pub known: Tables<Option<Meaning>>,
}

// The meaning that stays.
fn kept(known: Option<Option<Meaning>>, hidden: bool, new: Meaning) -> Option<Meaning>
    ensures { result ≡ first_meaning (option_flatten known) hidden new }
{
    match known {
        Some(Some(meaning)) => Some(meaning),
        _ => { if hidden { None } else { Some(new) } }
    }
}

// Notes a name that is defined twice.
fn tell(
    alloc: Global,
    first: &mut First,
    file: usize,
    name: &Name,
    taken: bool,
) -> Result<(), AllocError>
    ensures { OnOk result (first.new ≡ least first.old (cond taken (twice file name.now ∷ []) [])) }
{
    if taken {
        first.note_name(alloc, file, name.span, Code::DefinedTwice, &name.text)?;
    }
    Ok(())
}

impl<'a> Index<'a> {
    /// Of no declaration, over these scopes.
    pub fn new(alloc: Global, scopes: &Scopes) -> Result<Self, AllocError>
        ensures { IfOk result (λ i. IsIndex scopes.now [] i.structs.items i.consts.items i.functions.items i.known.maps.items) }
    {
        let mut known = Tables::new(alloc);
        for _ in 0..scopes.len() {
            known.open(alloc)?;
        }
        Ok(Index {
            structs: Vec::new(alloc),
            consts: Vec::new(alloc),
            functions: Vec::new(alloc),
            known,
        })
    }

    // Puts an item to those of its kind.
    fn number(&mut self, d: &Declaration<'a>) -> Result<Meaning, AllocError>
        ensures meaning { IfOk result (λ m. m ≡ meaning_as (lengths self.old.structs.items self.old.consts.items self.old.functions.items) (what_view d.now.what)) }
        ensures structs { OnOk result (self.new.structs.items ≡ self.old.structs.items ++ with_first (struct_in d.now d.now.what) []) }
        ensures consts { OnOk result (self.new.consts.items ≡ self.old.consts.items ++ with_first (const_in d.now d.now.what) []) }
        ensures functions { OnOk result (self.new.functions.items ≡ self.old.functions.items ++ with_first (function_in d.now d.now.what) []) }
        ensures known { self.new.known ≡ self.old.known }
    {
        let (file, scope, hidden) = (d.file, d.scope, d.hidden);
        match d.what {
            What::Module(_) => Ok(Meaning::Module),
            What::Struct(it) => {
                let number = self.structs.len();
                self.structs.push(StructItem {
                    file,
                    scope,
                    hidden,
                    it,
                })?;
                Ok(Meaning::Struct(number))
            }
            What::Const(it) => {
                let number = self.consts.len();
                self.consts.push(ConstItem {
                    file,
                    scope,
                    hidden,
                    it,
                })?;
                Ok(Meaning::Const(number))
            }
            What::Function(it) => {
                let number = self.functions.len();
                self.functions.push(FunctionItem {
                    file,
                    scope,
                    hidden,
                    it,
                })?;
                Ok(Meaning::Function(number))
            }
        }
    }

    /// One declaration more. Where its name is taken, that is noted.
    pub fn add(
        &mut self,
        alloc: Global,
        scopes: &Scopes,
        d: &Declaration<'a>,
        first: &mut First,
    ) -> Result<(), AllocError>
        requires scope { d.now.scope < length scopes.now }
        requires tables { length scopes.now ≤ length self.old.known.maps.items }
        ensures tables { length self.new.known.maps.items ≡ length self.old.known.maps.items }
        ensures index { OnOk result ((ds : List Declaration) → IsIndex scopes.now ds self.old.structs.items self.old.consts.items self.old.functions.items self.old.known.maps.items
            → IsIndex scopes.now (ds ++ d.now ∷ []) self.new.structs.items self.new.consts.items self.new.functions.items self.new.known.maps.items) }
        ensures told { OnOk result ((ds : List Declaration) → IsIndex scopes.now ds self.old.structs.items self.old.consts.items self.old.functions.items self.old.known.maps.items
            → first.new ≡ least first.old (repeat (map (declared_view scopes.now) ds) (declared_view scopes.now d.now))) }
    {
        let name = d.name();
        let known = self.known.get(d.scope, name.text.as_str());
        tell(alloc, first, d.file, name, known.is_some())?;
        let meaning = kept(known, d.hidden, self.number(d)?);
        self.known.put(alloc, d.scope, name.text.as_str(), meaning)
    }

    /// Notes the first function past the limit.
    pub fn past_limit(&self, alloc: Global, first: &mut First) -> Result<(), AllocError>
        ensures { OnOk result ((lists : List (List (List ℕ))) (ds : List Declaration) → IsIndex lists ds self.now.structs.items self.now.consts.items self.now.functions.items self.now.known.maps.items
            → first.new ≡ least first.old (past_limit (map (declared_view lists) ds) max_functions)) }
    {
        if let Some(item) = self.functions.get(MAX_FUNCTIONS) {
            first.note_count(
                alloc,
                item.file,
                item.it.name.span,
                Code::PastLimit,
                MAX_FUNCTIONS,
            )?;
        }
        Ok(())
    }
}
