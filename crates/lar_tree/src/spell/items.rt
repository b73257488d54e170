// Items.
ghost use Rattle.std.specs.Prelude.{◌≡◌, ◌++◌, ◌∷◌, [], OnOk, map, option_map};
ghost use Rattle.lar_tree.specs.declared.sign.Sign.TheVariants as sign;
ghost use Rattle.lar_tree.specs.declared.token.Kind.TheVariants as kind;
ghost use Rattle.lar_tree.specs.Spelling.{kinds, flat_option};
ghost use Rattle.lar_tree.specs.Commas.{commas_map, member_map, flat_commas, flat_members};
ghost use Rattle.lar_tree.specs.Items.{flat_attribute, flat_attributes, flat_name, flat_generic, flat_angled, flat_field, flat_output, flat_struct, flat_const, flat_head, flat_item, flat_items};
ghost use Rattle.lar_tree.specs.ItemView.{field_view, output_view, struct_view, fn_view, item_view, module_view, items_view};

use super::Speller;
use crate::{
    Angled, Attribute, Commas, Const, Field, Fn, Generic, Item, Keyword, Kind, Member, Mod, Name,
    Output, Sign, Struct, Text,
};
use std::alloc::AllocError;

#[tactic(auto, using(std::proofs::lemmas::Grind::common_steps, crate::proofs::KindsOf::kinds_of))]
impl Speller {
    fn attribute(&mut self, attribute: &Attribute) -> Result<(), AllocError>
        ensures { OnOk result (self.new.kinds.items ≡ self.old.kinds.items ++ kinds (flat_attribute attribute.now)) }
    {
        self.sign(Sign::Hash)?;
        self.sign(Sign::OpenBracket)?;
        let word = Text::copied(self.alloc, attribute.word.spelling())?;
        self.put(Kind::Name(word))?;
        self.sign(Sign::CloseBracket)
    }

    fn attributes(&mut self, attributes: &[Attribute]) -> Result<(), AllocError>
        ensures { OnOk result (self.new.kinds.items ≡ self.old.kinds.items ++ kinds (flat_attributes attributes.now)) }
    {
        for attribute in attributes {
            self.attribute(attribute)?;
        }
        Ok(())
    }

    fn more_names(&mut self, members: &[Member<Name>]) -> Result<(), AllocError>
        ensures { OnOk result (self.new.kinds.items ≡ self.old.kinds.items ++ kinds (flat_members flat_name members.now)) }
    {
        for member in members {
            self.sign(Sign::Comma)?;
            self.name(&member.value)?;
        }
        Ok(())
    }

    fn names(&mut self, generics: &Option<Angled<Name>>) -> Result<(), AllocError>
        ensures { OnOk result (self.new.kinds.items ≡ self.old.kinds.items ++ kinds (flat_option (flat_angled flat_name) generics.now)) }
    {
        match generics {
            None => Ok(()),
            Some(angled) => {
                self.sign(Sign::Less)?;
                self.name(&angled.list.first)?;
                self.more_names(angled.list.more.as_slice())?;
                self.sign(Sign::Greater)
            }
        }
    }

    fn generic(&mut self, generic: &Generic) -> Result<(), AllocError>
        ensures { OnOk result (self.new.kinds.items ≡ self.old.kinds.items ++ kinds (flat_generic generic.now)) }
    {
        match generic {
            Generic::Ty(name) => self.name(name),
            Generic::Const(made) => {
                self.word(Keyword::Const)?;
                self.name(&made.name)?;
                self.sign(Sign::Colon)?;
                self.word(Keyword::I64)
            }
        }
    }

    fn more_generics(&mut self, members: &[Member<Generic>]) -> Result<(), AllocError>
        ensures { OnOk result (self.new.kinds.items ≡ self.old.kinds.items ++ kinds (flat_members flat_generic members.now)) }
    {
        for member in members {
            self.sign(Sign::Comma)?;
            self.generic(&member.value)?;
        }
        Ok(())
    }

    fn generics(&mut self, generics: &Option<Angled<Generic>>) -> Result<(), AllocError>
        ensures { OnOk result (self.new.kinds.items ≡ self.old.kinds.items ++ kinds (flat_option (flat_angled flat_generic) generics.now)) }
    {
        match generics {
            None => Ok(()),
            Some(angled) => {
                self.sign(Sign::Less)?;
                self.generic(&angled.list.first)?;
                self.more_generics(angled.list.more.as_slice())?;
                self.sign(Sign::Greater)
            }
        }
    }

    fn field(&mut self, field: &Field) -> Result<(), AllocError>
        ensures { OnOk result (self.new.kinds.items ≡ self.old.kinds.items ++ kinds (flat_field (field_view field.now))) }
    {
        self.name(&field.name)?;
        self.sign(Sign::Colon)?;
        self.ty(&field.ty)
    }

    fn more_fields(&mut self, members: &[Member<Field>]) -> Result<(), AllocError>
        ensures { OnOk result (self.new.kinds.items ≡ self.old.kinds.items ++ kinds (flat_members flat_field (map (member_map field_view) members.now))) }
    {
        for member in members {
            self.sign(Sign::Comma)?;
            self.field(&member.value)?;
        }
        Ok(())
    }

    fn fields(&mut self, fields: &Option<Commas<Field>>) -> Result<(), AllocError>
        ensures { OnOk result (self.new.kinds.items ≡ self.old.kinds.items ++ kinds (flat_option (flat_commas flat_field) (option_map (commas_map field_view) fields.now))) }
    {
        match fields {
            None => Ok(()),
            Some(list) => {
                self.field(&list.first)?;
                self.more_fields(list.more.as_slice())
            }
        }
    }

    fn struct_item(&mut self, made: &Struct) -> Result<(), AllocError>
        ensures { OnOk result (self.new.kinds.items ≡ self.old.kinds.items ++ kinds (flat_struct (struct_view made.now))) }
    {
        self.word(Keyword::Struct)?;
        self.name(&made.name)?;
        self.names(&made.generics)?;
        self.sign(Sign::OpenBrace)?;
        self.fields(&made.fields)?;
        self.sign(Sign::CloseBrace)
    }

    fn const_item(&mut self, made: &Const) -> Result<(), AllocError>
        ensures { OnOk result (self.new.kinds.items ≡ self.old.kinds.items ++ kinds (flat_const made.now)) }
    {
        self.word(Keyword::Const)?;
        self.name(&made.name)?;
        self.sign(Sign::Colon)?;
        self.word(Keyword::I64)?;
        self.sign(Sign::Assign)?;
        self.signed(&made.value)?;
        self.sign(Sign::Semicolon)
    }

    fn output(&mut self, output: &Option<Output>) -> Result<(), AllocError>
        ensures { OnOk result (self.new.kinds.items ≡ self.old.kinds.items ++ kinds (flat_option flat_output (option_map output_view output.now))) }
    {
        match output {
            None => Ok(()),
            Some(output) => {
                self.sign(Sign::Arrow)?;
                self.ty(&output.ty)
            }
        }
    }

    fn params(&mut self, params: &Option<Commas<Field>>) -> Result<(), AllocError>
        ensures { OnOk result (self.new.kinds.items ≡ self.old.kinds.items ++ kind.Sign sign.OpenParen ∷ (kinds (flat_option (flat_commas flat_field) (option_map (commas_map field_view) params.now)) ++ kind.Sign sign.CloseParen ∷ [])) }
    {
        self.sign(Sign::OpenParen)?;
        self.fields(params)?;
        self.sign(Sign::CloseParen)
    }

    // What stands before a function's body.
    fn head(&mut self, made: &Fn) -> Result<(), AllocError>
        ensures { OnOk result (self.new.kinds.items ≡ self.old.kinds.items ++ kinds (flat_head (fn_view made.now))) }
    {
        self.attributes(made.attributes.as_slice())?;
        self.word(Keyword::Fn)?;
        self.name(&made.name)?;
        self.generics(&made.generics)?;
        self.params(&made.params)?;
        self.output(&made.output)
    }

    #[cycle(items)]
    fn item(&mut self, item: &Item) -> Result<(), AllocError>
        ensures { OnOk result (self.new.kinds.items ≡ self.old.kinds.items ++ kinds (flat_item (item_view item.now))) }
    {
        match item {
            Item::Mod(made) => self.module_item(made),
            Item::Struct(made) => self.struct_item(made),
            Item::Const(made) => self.const_item(made),
            Item::Fn(made) => {
                self.head(made)?;
                self.block(&made.body)
            }
        }
    }

    #[cycle(items)]
    fn module_item(&mut self, made: &Mod) -> Result<(), AllocError>
        ensures { OnOk result (self.new.kinds.items ≡ self.old.kinds.items ++ kinds (flat_item (module_view made.now))) }
    {
        self.word(Keyword::Mod)?;
        self.name(&made.name)?;
        self.sign(Sign::OpenBrace)?;
        self.items(made.items.as_slice())?;
        self.sign(Sign::CloseBrace)
    }

    #[cycle(items)]
    pub(super) fn items(&mut self, items: &[Item]) -> Result<(), AllocError>
        ensures { OnOk result (self.new.kinds.items ≡ self.old.kinds.items ++ kinds (flat_items (items_view items.now))) }
    {
        for item in items {
            self.item(item)?;
        }
        Ok(())
    }
}
