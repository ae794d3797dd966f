ghost use Rattle.std.specs.Prelude.{◌≡◌, List, [], ◌∷◌, ◌++◌, map, option_map, if◌then◌else◌, OnOk};
ghost use Rattle.pz_syntax.specs.declared.tokens.Mark.{Mark};
ghost use Rattle.pz_syntax.specs.Marks.{symbol, word, head, optional, each_text};
ghost use Rattle.pz_syntax.specs.ClassText.{group_names, group_text, formal_text, locals_text, data_method_text, data_class_text, message_text, start_text, process_method_text, process_class_text};
ghost use Rattle.pz_syntax.specs.ClassView.{data_method_view, data_class_view, start_view, process_method_view, process_class_view};

use super::exprs::{put_bracketed, put_exprs};
use super::marks::{
    Print, put_each, put_head, put_keyword, put_section, put_section_of_list, put_selector_head,
    put_separated, put_symbol, put_word,
};
use super::stmts::put_stmts;
use pz_syntax::pz_items::Items;
use pz_syntax::{
    DataClass, DataMethod, Id, Keyword, Mark, Message, ProcessClass, ProcessMethod, Start, Symbol,
    VarGroup,
};
use std::alloc::AllocError;

impl Print for VarGroup {
    ghost text_of = { group_text };

    fn print(&self, out: &mut Items<Mark>) -> Result<(), AllocError> {
        put_group_names(out, self.names.as_slice())?;
        put_symbol(out, Symbol::Colon)?;
        put_word(out, &self.kind)
    }
}

impl Print for DataMethod {
    ghost text_of = { λ m. data_method_text (data_method_view m) };

    fn print(&self, out: &mut Items<Mark>) -> Result<(), AllocError> {
        put_selector_head(out, &self.name)?;
        put_written_formal(out, &self.inputs)?;
        put_symbol(out, Symbol::Colon)?;
        put_word(out, &self.result)?;
        put_locals(out, &self.locals)?;
        put_exprs(out, Symbol::Semicolon, self.body.as_slice())
    }
}

impl Print for Items<DataMethod> {
    ghost text_of = { λ ms. each_text data_method_text (map data_method_view ms) };

    fn print(&self, out: &mut Items<Mark>) -> Result<(), AllocError> {
        put_each(out, self.as_slice())
    }
}

impl Print for DataClass {
    ghost text_of = { λ c. data_class_text (data_class_view c) };

    fn print(&self, out: &mut Items<Mark>) -> Result<(), AllocError> {
        put_keyword(out, Keyword::Data)?;
        put_keyword(out, Keyword::Class)?;
        put_word(out, &self.name)?;
        put_section(out, Keyword::Extends, &self.parent)?;
        put_section_of_list(out, Keyword::Variables, &self.variables)?;
        put_section(out, Keyword::Methods, &self.methods)
    }
}

impl Print for Message {
    ghost text_of = { message_text };

    fn print(&self, out: &mut Items<Mark>) -> Result<(), AllocError> {
        put_word(out, &self.port)?;
        let direction = if self.out {
            Symbol::Bang
        } else {
            Symbol::Query
        };
        put_symbol(out, direction)?;
        put_word(out, &self.name)?;
        if let Some(types) = &self.types {
            put_symbol(out, Symbol::LeftParen)?;
            put_separated(out, Symbol::Comma, types.as_slice())?;
            put_symbol(out, Symbol::RightParen)?;
        }
        Ok(())
    }
}

impl Print for Start {
    ghost text_of = { λ c. start_text (start_view c) };

    fn print(&self, out: &mut Items<Mark>) -> Result<(), AllocError> {
        put_head(out, &self.method)?;
        put_bracketed(out, Symbol::Comma, self.args.as_slice())?;
        put_symbol(out, Symbol::LeftParen)?;
        put_symbol(out, Symbol::RightParen)
    }
}

impl Print for ProcessMethod {
    ghost text_of = { λ m. process_method_text (process_method_view m) };

    fn print(&self, out: &mut Items<Mark>) -> Result<(), AllocError> {
        put_head(out, &self.name)?;
        put_formal(out, &self.inputs)?;
        put_formal(out, &self.outputs)?;
        put_locals(out, &self.locals)?;
        put_stmts(out, self.body.as_slice())
    }
}

impl Print for Items<ProcessMethod> {
    ghost text_of = { λ ms. each_text process_method_text (map process_method_view ms) };

    fn print(&self, out: &mut Items<Mark>) -> Result<(), AllocError> {
        put_each(out, self.as_slice())
    }
}

impl Print for ProcessClass {
    ghost text_of = { λ c. process_class_text (process_class_view c) };

    fn print(&self, out: &mut Items<Mark>) -> Result<(), AllocError> {
        put_keyword(out, Keyword::Process)?;
        put_keyword(out, Keyword::Class)?;
        put_word(out, &self.name)?;
        put_written_formal(out, &self.parameters)?;
        put_section(out, Keyword::Extends, &self.parent)?;
        put_section_of_list(out, Keyword::Ports, &self.ports)?;
        put_section_of_list(out, Keyword::Messages, &self.messages)?;
        put_section_of_list(out, Keyword::Variables, &self.variables)?;
        put_section(out, Keyword::Init, &self.start)?;
        put_section(out, Keyword::Methods, &self.methods)
    }
}

/// Names with a comma behind each but the last, which stands before a colon.
fn put_group_names(out: &mut Items<Mark>, names: &[Id]) -> Result<(), AllocError>
    ensures { OnOk result (out.new ≡ out.old ++ group_names names.now) }
{
    for (i, name) in names.iter().enumerate() {
        put_group_name(out, name, i + 1 == names.len())?;
    }
    Ok(())
}

fn put_group_name(out: &mut Items<Mark>, name: &Id, last: bool) -> Result<(), AllocError>
    ensures { OnOk result (out.new ≡ out.old ++ (if last then head name.now ∷ [] else word name.now
        ∷ symbol Symbol.Comma ∷ [])) }
{
    if last {
        return put_head(out, name);
    }
    put_word(out, name)?;
    put_symbol(out, Symbol::Comma)
}

/// Variables in brackets.
fn put_formal(out: &mut Items<Mark>, groups: &Items<VarGroup>) -> Result<(), AllocError>
    ensures { OnOk result (out.new ≡ out.old ++ formal_text groups.now) }
{
    put_symbol(out, Symbol::LeftParen)?;
    put_separated(out, Symbol::Comma, groups.as_slice())?;
    put_symbol(out, Symbol::RightParen)
}

/// Variables in brackets, if the brackets are written.
pub(crate) fn put_written_formal(
    out: &mut Items<Mark>,
    groups: &Option<Items<VarGroup>>,
) -> Result<(), AllocError>
    ensures { OnOk result (out.new ≡ out.old ++ optional formal_text groups.now) }
{
    match groups {
        None => Ok(()),
        Some(groups) => put_formal(out, groups),
    }
}

/// Variables between bars, if they are written.
fn put_locals(out: &mut Items<Mark>, groups: &Option<Items<VarGroup>>) -> Result<(), AllocError>
    ensures { OnOk result (out.new ≡ out.old ++ optional locals_text groups.now) }
{
    if let Some(groups) = groups {
        put_symbol(out, Symbol::Bar)?;
        put_separated(out, Symbol::Comma, groups.as_slice())?;
        put_symbol(out, Symbol::Bar)?;
    }
    Ok(())
}
