ghost use Rattle.std.specs.Prelude.{◌≡◌, List, [], ◌∷◌, ◌++◌, OnOk};
ghost use Rattle.pz_syntax.specs.declared.tokens.Mark.{Mark};
ghost use Rattle.pz_syntax.specs.ModelText.{arg_text, given_text, givens_text, instance_text, end_text, channel_text, cluster_class_text, system_text, decl_text};
ghost use Rattle.pz_syntax.specs.ClassView.{decl_view};

use super::classes::put_written_formal;
use super::exprs::put_literal;
use super::marks::{
    Print, put, put_head, put_keyword, put_section_of_each, put_section_of_list, put_separated,
    put_symbol, put_word,
};
use pz_syntax::pz_items::Items;
use pz_syntax::{
    Arg, Channel, ChannelEnd, ClusterClass, Decl, Given, Instance, Keyword, Mark, Symbol,
    SystemDecl, TokenKind,
};
use std::alloc::AllocError;

impl Print for Decl {
    ghost text_of = { λ d. decl_text (decl_view d) };

    fn print(&self, out: &mut Items<Mark>) -> Result<(), AllocError> {
        match self {
            Decl::Data(class) => class.print(out),
            Decl::Process(class) => class.print(out),
            Decl::Cluster(class) => class.print(out),
            Decl::System(system) => system.print(out),
        }
    }
}

impl Print for ClusterClass {
    ghost text_of = { cluster_class_text };

    fn print(&self, out: &mut Items<Mark>) -> Result<(), AllocError> {
        put_keyword(out, Keyword::Cluster)?;
        put_keyword(out, Keyword::Class)?;
        put_word(out, &self.name)?;
        put_written_formal(out, &self.parameters)?;
        put_section_of_list(out, Keyword::Ports, &self.ports)?;
        put_section_of_each(out, Keyword::Instances, &self.instances)?;
        put_section_of_each(out, Keyword::Channels, &self.channels)
    }
}

impl Print for SystemDecl {
    ghost text_of = { system_text };

    fn print(&self, out: &mut Items<Mark>) -> Result<(), AllocError> {
        put_keyword(out, Keyword::System)?;
        put_section_of_each(out, Keyword::Instances, &self.instances)?;
        put_section_of_each(out, Keyword::Channels, &self.channels)
    }
}

impl Print for Instance {
    ghost text_of = { instance_text };

    fn print(&self, out: &mut Items<Mark>) -> Result<(), AllocError> {
        put_head(out, &self.name)?;
        put_symbol(out, Symbol::Colon)?;
        put_word(out, &self.class)?;
        match &self.given {
            None => Ok(()),
            Some(given) => given.print(out),
        }
    }
}

impl Print for Items<Given> {
    ghost text_of = { givens_text };

    fn print(&self, out: &mut Items<Mark>) -> Result<(), AllocError> {
        put_symbol(out, Symbol::LeftParen)?;
        put_separated(out, Symbol::Comma, self.as_slice())?;
        put_symbol(out, Symbol::RightParen)
    }
}

impl Print for Given {
    ghost text_of = { given_text };

    fn print(&self, out: &mut Items<Mark>) -> Result<(), AllocError> {
        put_word(out, &self.name)?;
        put_symbol(out, Symbol::Assign)?;
        self.arg.print(out)
    }
}

impl Print for Arg {
    ghost text_of = { arg_text };

    fn print(&self, out: &mut Items<Mark>) -> Result<(), AllocError> {
        match self {
            Arg::Plain(literal, _) => put_literal(out, literal),
            Arg::Negated(number, _) => {
                put_symbol(out, Symbol::Minus)?;
                put(out, TokenKind::Int(*number))
            }
            Arg::Parameter(name) => put_word(out, name),
        }
    }
}

impl Print for Channel {
    ghost text_of = { channel_text };

    fn print(&self, out: &mut Items<Mark>) -> Result<(), AllocError> {
        put_symbol(out, Symbol::LeftBrace)?;
        put_separated(out, Symbol::Comma, self.ends.as_slice())?;
        put_symbol(out, Symbol::RightBrace)
    }
}

impl Print for ChannelEnd {
    ghost text_of = { end_text };

    fn print(&self, out: &mut Items<Mark>) -> Result<(), AllocError> {
        match self {
            ChannelEnd::Inner(part, port) => {
                put_word(out, part)?;
                put_symbol(out, Symbol::Dot)?;
                put_word(out, port)
            }
            ChannelEnd::Outer(port) => put_word(out, port),
        }
    }
}
