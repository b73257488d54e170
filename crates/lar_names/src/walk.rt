//! The walk over the trees, in reading order: a declaration for each item, a scope for each module.
//!
//! The items of a module are gone through in a loop, and a module in it by recursion, so the recursion is as deep as modules
//! stand in one another. Each body of a module keeps the names of its items so far: a module whose name is among them is
//! hidden, with all that stands in it.
ghost use Rattle.std.specs.Prelude.{◌≡◌, ℕ, ◌<◌, ◌||◌, false, ◌++◌, ◌∷◌, [], List, length, IfOk, OnOk};
ghost use Rattle.std.specs.Str.{IsAscii};
ghost use Rattle.lar_tree.specs.ItemView.{item_view, module_view, items_view, tree_view};
ghost use Rattle.lar_rules.specs.Declared.{has_name, item_name, item_declared, items_declared, declared_from};
ghost use Rattle.lar_names.specs.Declarations.{Reads};
ghost use Rattle.lar_names.specs.Scopes.{Grows, list_at};
ghost use Rattle.lar_names.specs.Sources.{module_name, sources_of};

use crate::{Declaration, Earlier, Scopes, What};
use lar_tree::{Item, Mod, Name, Text, Tree};
use std::alloc::{AllocError, Global};

/// Where items stand: the numbers of their file and of their scope, and whether they are hidden.
#[derive(Clone, Copy, Drop)]
pub struct Spot {
    pub file: usize,
    pub scope: usize,
    pub hidden: bool,
}

impl Spot {
    // Where the items of a module stand, in this scope.
    fn inner(self, scope: usize, repeated: bool) -> Spot
        ensures { result ≡ record { file = self.file; scope = scope; hidden = self.hidden || repeated } }
    {
        Spot {
            file: self.file,
            scope,
            hidden: self.hidden || repeated,
        }
    }
}

/// What was found so far.
#[derive(Drop)]
pub struct Found<'a> {
    pub scopes: Scopes,
    pub declared: Vec<Declaration<'a>>,
}

fn name_of(item: &Item) -> &Name
    ensures { result.now ≡ item_name (item_view item.now) }
{
    match item {
        Item::Mod(made) => &made.name,
        Item::Struct(made) => &made.name,
        Item::Const(made) => &made.name,
        Item::Fn(made) => &made.name,
    }
}

fn put<'a>(
    declared: &mut Vec<Declaration<'a>>,
    spot: Spot,
    what: What<'a>,
) -> Result<(), AllocError>
    ensures { OnOk result (declared.new.items ≡ declared.old.items ++ record { file = spot.file; scope = spot.scope; hidden = spot.hidden; what = what.entry } ∷ []) }
{
    declared.push(Declaration {
        file: spot.file,
        scope: spot.scope,
        hidden: spot.hidden,
        what,
    })?;
    Ok(())
}

#[cycle(walk)]
fn item<'a>(
    item: &'a Item,
    spot: Spot,
    repeated: bool,
    alloc: Global,
    found: &mut Found<'a>,
) -> Result<(), AllocError>
    requires { spot.scope < length found.old.scopes }
    ensures grown { Grows found.old.scopes found.new.scopes }
    ensures ok { OnOk result ((earlier : List (List ℕ)) → has_name (item_name (item_view item.now)).text earlier ≡ repeated → Reads found.old.declared.items found.new.declared.items found.new.scopes (item_declared spot.file (list_at found.old.scopes spot.scope) spot.hidden earlier (item_view item.now))) }
{
    match item {
        Item::Mod(made) => module_item(made, spot, repeated, alloc, found),
        Item::Struct(made) => put(&mut found.declared, spot, What::Struct(made)),
        Item::Const(made) => put(&mut found.declared, spot, What::Const(made)),
        Item::Fn(made) => put(&mut found.declared, spot, What::Function(made)),
    }
}

#[cycle(walk)]
fn module_item<'a>(
    made: &'a Mod,
    spot: Spot,
    repeated: bool,
    alloc: Global,
    found: &mut Found<'a>,
) -> Result<(), AllocError>
    requires { spot.scope < length found.old.scopes }
    ensures grown { Grows found.old.scopes found.new.scopes }
    ensures ok { OnOk result ((earlier : List (List ℕ)) → has_name made.now.name.text earlier ≡ repeated → Reads found.old.declared.items found.new.declared.items found.new.scopes (item_declared spot.file (list_at found.old.scopes spot.scope) spot.hidden earlier (module_view made.now))) }
{
    put(&mut found.declared, spot, What::Module(made))?;
    let scope = found
        .scopes
        .enter(alloc, spot.scope, made.name.text.as_str())?;
    items(
        made.items.as_slice(),
        spot.inner(scope, repeated),
        alloc,
        found,
    )
}

#[cycle(walk)]
fn items<'a>(
    items: &'a [Item],
    spot: Spot,
    alloc: Global,
    found: &mut Found<'a>,
) -> Result<(), AllocError>
    requires { spot.scope < length found.old.scopes }
    ensures grown { Grows found.old.scopes found.new.scopes }
    ensures ok { OnOk result (Reads found.old.declared.items found.new.declared.items found.new.scopes (items_declared spot.file (list_at found.old.scopes spot.scope) spot.hidden [] (items_view items.now))) }
{
    let mut earlier = Earlier::new(alloc);
    for one in items {
        let name = name_of(one).text.as_str();
        let repeated = earlier.has(name);
        item(one, spot, repeated, alloc, found)?;
        earlier.add(name)?;
    }
    Ok(())
}

/// The name of a file without its last six bytes.
fn name_of_module(file: &Text) -> &str
    ensures name { result.now ≡ module_name file.now }
    ensures ascii { IsAscii result.now }
{
    let name = file.as_str();
    &name[..name.len().saturating_sub(6)]
}

fn source<'a>(
    tree: &'a Tree,
    file: usize,
    alloc: Global,
    found: &mut Found<'a>,
) -> Result<(), AllocError>
    ensures grown { Grows found.old.scopes found.new.scopes }
    ensures ok { OnOk result (Reads found.old.declared.items found.new.declared.items found.new.scopes (items_declared file (module_name tree.now.file ∷ []) false [] (tree_view tree.now))) }
{
    let _ = found.scopes.len();
    let scope = found.scopes.enter(alloc, 0, name_of_module(&tree.file))?;
    let spot = Spot {
        file,
        scope,
        hidden: false,
    };
    items(tree.items.as_slice(), spot, alloc, found)
}

/// All that the trees declare.
pub fn walked<'a>(alloc: Global, trees: &'a [Tree]) -> Result<Found<'a>, AllocError>
    ensures { IfOk result (λ f. Reads [] f.declared.items f.scopes (declared_from 0 (sources_of trees.now))) }
{
    let mut found = Found {
        scopes: Scopes::new(alloc)?,
        declared: Vec::new(alloc),
    };
    for (file, tree) in trees.iter().enumerate() {
        source(tree, file, alloc, &mut found)?;
    }
    Ok(found)
}
